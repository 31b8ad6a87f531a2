//! What no clause says: digests and roots known outside, and a tree built with ample memory.

ghost use Rattle.std.specs.Prelude.{◌<◌};

use bv_merkle::{
    Builder, Digest, Tree, block_digest, blocks_needed, blocks_needed_of, levels, root,
    tree_blocks, tree_blocks_of, windows,
};
use std::alloc::{AllocError, Global};
use std::test::Fail;

// A digest as two numbers, of sixteen bytes each, whose hexadecimal digits are those of its text.
fn halves(digest: &Digest) -> [u128; 2] {
    let mut front = [0; 16];
    front.copy_from_slice(&digest.0[..16]);
    let mut back = [0; 16];
    back.copy_from_slice(&digest.0[16..]);
    [u128::from_be_bytes(front), u128::from_be_bytes(back)]
}

// The tree of bytes that are pushed in pieces of `step` bytes.
fn tree_by(alloc: Global, bytes: &[u8], step: usize) -> Result<Tree, AllocError>
    requires { 0 < step }
{
    let mut builder = Builder::new(alloc, bytes.len() as u64)?;
    let mut rest = bytes;
    while !rest.is_empty() {
        let (piece, more) = rest.split_at(rest.len().min(step));
        builder.push(alloc, piece)?;
        rest = more;
    }
    builder.finish(alloc)
}

// The roots of so many bytes of one value: by python's hashlib, from the definition. 8,192 bytes of
// 255 are a vector of Fuchsia's own.
const ROOTS: [(&str, u8, u32, [u128; 2]); 8] = [
    (
        "no bytes",
        0,
        0,
        [
            0x15ec7bf0b50732b49f8228e07d243653,
            0x38f9e3ab994b00af08e5a3bffe55fd8b,
        ],
    ),
    (
        "one block",
        255,
        8192,
        [
            0x68d131bc271f9c192d4f6dcd8fe61bef,
            0x90004856da19d0f2f514a7f4098b0737,
        ],
    ),
    (
        "two blocks",
        0x41,
        8193,
        [
            0xb1699626e878b7108169d8056aa2b2d8,
            0x9605a90cec3cc7fb3ac2013fe51bd996,
        ],
    ),
    (
        "three blocks, the last of one byte",
        0x41,
        16_385,
        [
            0x48a483cc989cfb8b2cb90949b6b4f1b3,
            0x43ae8fb342b3ded4fec79d938d97058e,
        ],
    ),
    (
        "a window that lacks one byte",
        0x41,
        65_535,
        [
            0xbdb1e6c4dd24a967e88723791c9a0a04,
            0x5fffc1231a09d2565a5c0f0674dc1bb2,
        ],
    ),
    (
        "one window",
        0x41,
        65_536,
        [
            0xbda3bac47c49b17008a390fba7ed5d0a,
            0xf4c82216a4dfa0c93a4fc90373a6c793,
        ],
    ),
    (
        "two windows",
        0x41,
        65_537,
        [
            0xcad84921a1e67f0cc7c081d85b7f699b,
            0xbbce167b53d3d6c564b54c508a5b4982,
        ],
    ),
    (
        "two levels",
        0x41,
        2_097_153,
        [
            0x0c61de8c1e0d935ddd05836f6f792b7c,
            0x21e9da54c5ee997982f0c8810f025362,
        ],
    ),
];

#[test]
fn roots_are_those_known_outside(rt: HostRuntime) -> Result<(), Fail> {
    let alloc = rt.alloc();
    for (name, byte, size, expected) in ROOTS {
        let bytes = vec![in alloc; byte; size as usize]?;
        assert_eq!(rt; halves(&root(&bytes)), expected, "{name}");
        for step in [1, 4095, 8192] {
            let tree = tree_by(alloc, &bytes, step)?;
            assert_eq!(rt; halves(&tree.root), expected, "{name} in pieces of {step}");
        }
    }
    Ok(())
}

// How many blocks each level above the data has, from level 1 upward.
fn level_lengths(alloc: Global, size: usize) -> Result<Vec<usize>, AllocError>
    requires { size < 2097154 }
{
    let bytes = vec![in alloc; 0; size]?;
    let tree = tree_by(alloc, &bytes, 8192)?;
    tree.levels.iter().map(|blocks| blocks.len()).collect(alloc)
}

#[test]
fn a_tree_has_the_blocks_of_its_levels(rt: HostRuntime) -> Result<(), Fail> {
    let alloc = rt.alloc();
    let none: [usize; 0] = [];
    assert_eq!(rt;
        level_lengths(alloc, 8192)?.as_slice(),
        none.as_slice(),
        "one block"
    );
    assert_eq!(rt;
        level_lengths(alloc, 8193)?.as_slice(),
        [1].as_slice(),
        "two blocks"
    );
    assert_eq!(rt;
        level_lengths(alloc, 2097153)?.as_slice(),
        [2, 1].as_slice(),
        "two levels"
    );
    Ok(())
}

// By python's hashlib, from the definition.
#[test]
fn block_digests_are_those_known_outside(rt: HostRuntime) {
    let digests = block_digest(1, 8192, &[7; 8192]);
    assert_eq!(rt;
        halves(&digests),
        [
            0x043491253559d4154f3b089cf078e299,
            0x5beb6a1ebcdcaea5c0c279a18c343edb,
        ],
        "a block of digests"
    );
    let data = block_digest(0, 16384, b"hi");
    assert_eq!(rt;
        halves(&data),
        [
            0xf33b4a019752b08f5d78ff34d3f549aa,
            0x8bda5db503c7d16b491efc6b981e7072,
        ],
        "a short block of data"
    );
    let none = block_digest(0, 8192, &[]);
    assert_eq!(rt; halves(&none), ROOTS[0].3, "no data at an offset");
}

// Whether a blob of this size has so many blocks in version 1, in version 2, and so many levels,
// with trees and windows to match.
fn has_sizes(size: u64, padded: u64, compact: u64, above: u32) -> bool {
    let data = size.div_ceil(8192);
    blocks_needed(size) == padded
        && blocks_needed_of(2, size) == compact
        && levels(size) == above
        && padded.checked_sub(data) == Some(tree_blocks(size))
        && compact.checked_sub(data) == Some(tree_blocks_of(2, size))
        && windows(size) == size.div_ceil(65536).max(1)
}

#[test]
fn sizes_have_the_rows_of_the_format(rt: HostRuntime) {
    assert!(rt; has_sizes(0, 0, 0, 0), "no bytes");
    assert!(rt; has_sizes(8192, 1, 1, 0), "one block");
    assert!(rt; has_sizes(8193, 3, 3, 1), "two blocks");
    assert!(rt; has_sizes(2097152, 257, 257, 1), "a full block of digests");
    assert!(rt; has_sizes(2097153, 260, 259, 2), "two levels");
}
