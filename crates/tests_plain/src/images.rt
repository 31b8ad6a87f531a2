//! Whole images by hand. The roots are by a SHA-256 elsewhere, and the checksums by zlib.
//!
//! A volume of version 2 has 64 data blocks, a journal of 16 blocks, and one or two blocks of nodes.
//! Its two blobs take such data blocks that the bitmap begins as a journal header does.

use bv_check::check;
use bv_device::MemDevice;
use bv_merkle::block_digest;
use bv_mount::inspect_all;
use spec_disk::Block;
use spec_tree::Digest;
use std::alloc::{AllocError, Global};
use std::test::Fail;

/// The magic of headers and commits, which is also the bitmap of the two blobs.
const MAGIC: [u8; 8] = [0x79, 0x72, 0x74, 0x6e, 0x62, 0x6f, 0x6c, 0x62];

/// 8197 bytes: 0xa1 in the first block, 0xa2 in the second.
const FIRST: Digest = Digest([
    0x16, 0x8d, 0xea, 0x6c, 0xe9, 0xea, 0xaa, 0x18, 0x39, 0x32, 0xfe, 0xed, 0x6a, 0x11, 0x74, 0x45,
    0x73, 0x3e, 0xb7, 0x2a, 0xb7, 0x6c, 0x8c, 0x86, 0x0d, 0xbe, 0x49, 0x9f, 0xb3, 0x06, 0x54, 0x41,
]);

/// 237468 bytes: block k has bytes k + 1.
const SECOND: Digest = Digest([
    0xf9, 0x3c, 0x09, 0x0e, 0x78, 0xa0, 0x41, 0xa4, 0xf0, 0xca, 0x1a, 0x3b, 0x12, 0x92, 0xbb, 0x82,
    0x86, 0x10, 0x02, 0x36, 0x8f, 0xc6, 0x19, 0x91, 0x91, 0x35, 0x8c, 0xaa, 0x96, 0xf9, 0x2d, 0x7d,
]);

/// The second blob's extents: the inode's, and those of its three containers.
const EXTENTS: [(u8, u8); 14] = [
    (3, 2),
    (5, 2),
    (9, 1),
    (12, 3),
    (18, 1),
    (20, 3),
    (25, 3),
    (29, 2),
    (33, 1),
    (37, 2),
    (40, 4),
    (45, 2),
    (50, 2),
    (53, 2),
];

/// Writes bytes at an offset of a block.
fn put(block: &mut Block, offset: usize, bytes: &[u8]) {
    if offset <= 8192 && bytes.len() <= 8192 - offset {
        block[offset..offset + bytes.len()].copy_from_slice(bytes);
    }
}

/// Writes bytes at an offset of a block of an image.
pub(crate) fn put_at(image: &mut [Block], at: usize, offset: usize, bytes: &[u8]) {
    if let Some(block) = image.get_mut(at) {
        put(block, offset, bytes);
    }
}

/// Puts a block in its place of an image.
pub(crate) fn set(image: &mut [Block], at: usize, block: &Block) {
    put_at(image, at, 0, block);
}

/// A superblock with so many blocks of nodes and these counts of blobs, blocks and nodes.
fn superblock(node_blocks: u8, counts: [u8; 3]) -> Block {
    let mut block = [0; 8192];
    put(&mut block, 0, b"blobvol\0profile1");
    block[16] = 2;
    block[24] = 64;
    put(&mut block, 32, &(128 * node_blocks as u16).to_le_bytes());
    block[40] = 16;
    block[48] = 1;
    block[56] = node_blocks;
    block[64] = counts[0];
    block[72] = counts[1];
    block[80] = counts[2];
    block
}

/// An info block of a start and a number, with its checksum.
pub(crate) fn info(start: u8, number: u8, checksum: u32) -> Block {
    let mut block = [0; 8192];
    put(
        &mut block,
        0,
        &[0x6c, 0x6e, 0x72, 0x6a, 0x62, 0x6f, 0x6c, 0x62],
    );
    block[8] = start;
    block[24] = number;
    put(&mut block, 32, &checksum.to_le_bytes());
    block
}

/// Writes an extent at an offset of a block.
fn put_extent(block: &mut Block, offset: usize, extent: (u8, u8)) {
    put(block, offset, &[extent.0, 0, 0, 0, 0, 0, extent.1, 0]);
}

/// Writes an inode at a place of a block of nodes.
fn put_inode(block: &mut Block, place: u8, version: u8, next: u8, root: Digest) {
    let from = 64 * place as usize;
    put(block, from, &[1, 0, version, 0, next]);
    put(block, from + 8, &root.0);
}

/// Writes a container at a place of a block of nodes, with these extents.
fn put_container(
    block: &mut Block,
    place: u8,
    version: u8,
    link: [u8; 4],
    previous: u8,
    extents: &[(u8, u8)],
) {
    let from = 64 * place as usize;
    put(block, from, &[9, 0, version, 0]);
    put(block, from + 4, &link);
    put(
        block,
        from + 8,
        &[previous, 0, 0, 0, extents.len().min(6) as u8],
    );
    for (index, extent) in extents.iter().take(6).enumerate() {
        put_extent(block, from + 16 + 8 * index, *extent);
    }
}

/// The first block of nodes: the first blob at nodes 5 and 2, the second at 0, 7 and 127, from which
/// a link leads to its last one.
fn nodes(last: u8) -> Block {
    let mut block = [0; 8192];
    put_inode(&mut block, 5, 1, 2, FIRST);
    put(&mut block, 64 * 5 + 40, &[0x05, 0x20]);
    put(&mut block, 64 * 5 + 48, &[3, 0, 0, 0, 2]);
    put_extent(&mut block, 64 * 5 + 56, (57, 1));
    put_container(&mut block, 2, 1, [0xff; 4], 5, &[(61, 2)]);
    put_inode(&mut block, 0, 2, 7, SECOND);
    put(&mut block, 40, &[0x9c, 0x9f, 0x03]);
    put(&mut block, 48, &[30, 0, 0, 0, 14]);
    put_extent(&mut block, 56, EXTENTS[0]);
    put_container(&mut block, 7, 2, [127, 0, 0, 0], 0, &EXTENTS[1..7]);
    put_container(&mut block, 127, 2, [last, 0, 0, 0], 7, &EXTENTS[7..13]);
    block
}

/// Puts the second blob's last node at place 3 of a block of nodes.
fn put_last(block: &mut Block) {
    put_container(block, 3, 2, [0xff; 4], 127, &EXTENTS[13..]);
}

/// Fills the data blocks of an extent with bytes from one on, where data block 0 is at this place.
fn fill(image: &mut [Block], data: usize, extent: (u8, u8), first: u8) {
    for ahead in 0..extent.1 {
        let at = data.saturating_add(extent.0 as usize + ahead as usize);
        set(image, at, &[first.wrapping_add(ahead); 8192]);
    }
}

/// Puts the digest of data block `k` of a blob, of so many bytes `byte`, into the blob's tree.
fn put_digest(tree: &mut Block, k: u8, byte: u8, count: usize) {
    let digest = block_digest(0, 8192 * k as u64, &[byte; 8192][..count.min(8192)]);
    put(tree, 32 * k as usize, &digest.0);
}

/// The digests of a blob's data blocks, of which block k has bytes `first + k`, before bytes `behind`.
/// The block `last` has so many bytes.
fn tree(first: u8, last: u8, count: usize, behind: u8) -> Block {
    let mut tree = [behind; 8192];
    for k in 0..last {
        put_digest(&mut tree, k, first.wrapping_add(k), 8192);
    }
    put_digest(&mut tree, last, first.wrapping_add(last), count);
    tree
}

/// Fills the blobs' blocks: the first blob's tree and data, the second's data and tree.
fn fill_data(image: &mut [Block], data: usize) {
    set(image, data.saturating_add(57), &tree(0xa1, 1, 5, 0));
    fill(image, data, (61, 2), 0xa1);
    let mut byte = 1u8;
    for extent in EXTENTS {
        fill(image, data, extent, byte);
        byte = byte.wrapping_add(extent.1);
    }
    set(image, data.saturating_add(54), &tree(1, 28, 8092, 30));
}

/// The image whose metadata blocks have the two blobs, with an empty journal, and one or two blocks
/// of nodes. The second blob's last node is in the last of these.
fn settled(alloc: Global, two: bool) -> Result<Vec<Block>, AllocError> {
    let (node_blocks, last) = if two { (2, 131) } else { (1, 3) };
    let meta = 2 + node_blocks as usize;
    let mut image = vec![in alloc; [0; 8192]; meta + 80]?;
    set(&mut image, 0, &superblock(node_blocks, [2, 34, 6]));
    put_at(&mut image, 1, 0, &MAGIC);
    set(&mut image, 2, &nodes(last));
    if let Some(block) = image.get_mut(meta - 1) {
        put_last(block);
    }
    set(&mut image, meta, &info(3, 8, 0xd694_723d));
    fill_data(&mut image, meta + 16);
    Ok(image)
}

/// The image whose metadata blocks have no blob, with an entry of the two blobs that wraps around
/// the ring and has an escaped payload, the bitmap.
pub(crate) fn journaled(alloc: Global) -> Result<Vec<Block>, AllocError> {
    let mut image = settled(alloc, false)?;
    let mut last = nodes(3);
    put_last(&mut last);
    set(&mut image, 0, &superblock(1, [0, 1, 0]));
    put_at(&mut image, 1, 0, &[1, 0, 0, 0, 0, 0, 0, 0]);
    set(&mut image, 2, &[0; 8192]);
    set(&mut image, 3, &info(13, 7, 0x6d84_0e7f));
    put_at(&mut image, 17, 0, &MAGIC);
    put_at(&mut image, 17, 8, &[7, 0, 0, 0, 0, 0, 0, 0, 1]);
    put_at(&mut image, 17, 32, &[3]);
    put_at(&mut image, 17, 48, &[1, 0, 0, 0, 0, 0, 0, 0, 2]);
    put_at(&mut image, 17, 5476, &[1]);
    set(&mut image, 18, &superblock(1, [2, 34, 6]));
    set(&mut image, 5, &last);
    put_at(&mut image, 6, 0, &MAGIC);
    put_at(&mut image, 6, 8, &[7, 0, 0, 0, 0, 0, 0, 0, 2]);
    put_at(&mut image, 6, 32, &[0x31, 0x23, 0x88, 0xba]);
    Ok(image)
}

/// A device that has an image.
fn device(alloc: Global, image: &[Block]) -> Result<MemDevice, AllocError> {
    Ok(MemDevice::from_blocks(alloc, Vec::from_slice(alloc, image)?))
}

/// How many blobs an image has, where it has a volume, and whether they are the two.
fn found(alloc: Global, image: &[Block]) -> Result<Option<(usize, bool)>, AllocError> {
    let Ok((_, survey)) = inspect_all(alloc, &mut device(alloc, image)?) else {
        return Ok(None);
    };
    let mut has_first = false;
    let mut has_second = false;
    for blob in &survey.blobs {
        has_first |= blob.root() == FIRST && blob.size() == 8197 && blob.version() == 1;
        has_second |= blob.root() == SECOND && blob.size() == 237_468 && blob.version() == 2;
    }
    Ok(Some((survey.blobs.len(), has_first && has_second)))
}

/// Whether the first blob is whole, and the second.
fn are_whole(alloc: Global, image: &[Block]) -> Result<[bool; 2], AllocError> {
    let Ok(report) = check(alloc, &mut device(alloc, image)?) else {
        return Ok([false, false]);
    };
    let is_clean = report.faults.is_empty() && report.blobs == 2;
    Ok([FIRST, SECOND].map(|root| is_clean && !report.damaged.contains(&root)))
}

#[test]
fn an_image_stands_for_its_replayed_blobs(rt: HostRuntime) -> Result<(), Fail> {
    for (name, mut image) in [
        ("in place", settled(rt.alloc(), false)?),
        ("with two blocks of nodes", settled(rt.alloc(), true)?),
        ("in the journal", journaled(rt.alloc())?),
    ] {
        assert_eq!(rt; found(rt.alloc(), &image)?, Some((2, true)), "{name}");
        assert_eq!(rt; are_whole(rt.alloc(), &image)?, [true, true], "{name}");
        let first_data = image.len().saturating_sub(3);
        put_at(&mut image, first_data, 8191, &[0]);
        assert_eq!(rt; are_whole(rt.alloc(), &image)?, [false, true], "{name}");
    }
    Ok(())
}

#[test]
fn one_wrong_byte_leaves_no_volume_or_its_blob_damaged(rt: HostRuntime) -> Result<(), Fail> {
    // the block, the offset and the byte there, and whether each blob is whole, where there is a
    // volume; a damaged tree leaves its blob whole
    let rows = [
        ("the superblock's magic", 0, 0, 0, None),
        ("the count of blobs", 0, 64, 3, None),
        ("the count of blocks", 0, 72, 33, None),
        ("the count of nodes", 0, 80, 5, None),
        ("the bit of data block 0", 1, 0, 0x78, None),
        ("the last used bit", 1, 7, 0x22, None),
        ("a bit past the last data block", 1, 8, 1, None),
        ("the last bit", 1, 8191, 0x80, None),
        ("a free node that isn't zero", 2, 64, 1, None),
        ("the first node's link", 2, 4, 8, None),
        ("the first node's extents", 2, 52, 13, None),
        ("the last node's previous one", 2, 8136, 8, None),
        ("the last node's version", 2, 8130, 1, None),
        ("the last node's last extent", 2, 8184, 54, None),
        ("the info block's number", 3, 24, 9, None),
        ("the first blob's data", 81, 4, 0, Some([false, true])),
        ("behind its data", 81, 5, 0, Some([true, true])),
        ("its tree", 76, 0, 0, Some([true, true])),
        ("an unused place of it", 76, 8191, 1, Some([true, true])),
        ("the second's last window", 72, 8091, 0, Some([true, false])),
        ("its tree", 73, 927, 0, Some([true, true])),
        ("behind its tree", 73, 928, 0, Some([true, true])),
    ];
    for (name, block, offset, value, whole) in rows {
        let mut image = settled(rt.alloc(), false)?;
        put_at(&mut image, block, offset, &[value]);
        match whole {
            None => assert_eq!(rt; found(rt.alloc(), &image)?, None, "{name}"),
            Some(whole) => assert_eq!(rt; are_whole(rt.alloc(), &image)?, whole, "{name}"),
        }
    }
    Ok(())
}
