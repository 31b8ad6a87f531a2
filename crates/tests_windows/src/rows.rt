//! Windows that are honest, and what fails first in some that aren't: values by python's hashlib.

use crate::blobs::{Verdict, honest, judged};
use bv_merkle::{Digest, root};
use bv_proof::Mismatch;
use std::test::Fail;

/// The digest of block 3 of bytes 41.
pub(crate) const BLOCK_3: Digest = Digest([
    0x45, 0x4a, 0x16, 0xaa, 0x72, 0xec, 0x0b, 0xa7, 0xcd, 0x65, 0xa0, 0x0d, 0x59, 0x21, 0x3b, 0x7d,
    0x72, 0x61, 0x4e, 0x86, 0x45, 0xaa, 0x7d, 0xbe, 0x27, 0xbc, 0xde, 0xb1, 0x8a, 0xce, 0xd9, 0xa4,
]);

/// That of this block with its first byte changed to 40.
pub(crate) const CHANGED_3: Digest = Digest([
    0xd4, 0x79, 0xbb, 0xa9, 0xcb, 0x68, 0x5d, 0xed, 0x62, 0x52, 0xaf, 0xeb, 0x50, 0xb5, 0x64, 0x42,
    0x57, 0x96, 0x85, 0x32, 0x50, 0x42, 0x91, 0xe6, 0xcb, 0x59, 0xa7, 0x47, 0x7c, 0x86, 0x48, 0x8e,
]);

/// The root of 65,536 bytes 41.
const ROOT_41: Digest = Digest([
    0xbd, 0xa3, 0xba, 0xc4, 0x7c, 0x49, 0xb1, 0x70, 0x08, 0xa3, 0x90, 0xfb, 0xa7, 0xed, 0x5d, 0x0a,
    0xf4, 0xc8, 0x22, 0x16, 0xa4, 0xdf, 0xa0, 0xc9, 0x3a, 0x4f, 0xc9, 0x03, 0x73, 0xa6, 0xc7, 0x93,
]);

/// That of as many bytes 42.
const ROOT_42: Digest = Digest([
    0x0c, 0x1e, 0x5d, 0x11, 0x25, 0xc9, 0x2f, 0xa6, 0x51, 0x20, 0x9f, 0xad, 0x5f, 0xea, 0xc1, 0xbe,
    0x50, 0x9a, 0x1f, 0x52, 0x56, 0x48, 0x21, 0x48, 0x6e, 0xf0, 0xbe, 0x94, 0x94, 0x8f, 0xab, 0xda,
]);

/// Where data block 3 begins.
const AT_3: usize = 24_576;

#[test]
fn a_changed_byte_of_a_block_is_told_with_both_digests(rt: HostRuntime) -> Result<(), Fail> {
    let bytes = vec![in rt.alloc(); 0x41u8; 131_072]?;
    let name = root(&bytes);
    let raw = honest(rt.alloc(), &bytes, 0)?;
    let mut raw = raw.expect(&rt, "a window");
    assert_eq!(rt; judged(&name, 131_072, &raw), Verdict::Verifies);
    if let Some(byte) = raw.bytes.get_mut(AT_3) {
        *byte = 0x40;
    }
    let wanted = Mismatch {
        level: 0,
        offset: 24_576,
        wanted: BLOCK_3,
        found: CHANGED_3,
    };
    assert_eq!(rt; judged(&name, 131_072, &raw), Verdict::Fails(wanted));
    Ok(())
}

#[test]
fn a_digest_in_an_unused_place_is_told_with_its_place(rt: HostRuntime) -> Result<(), Fail> {
    let bytes = vec![in rt.alloc(); 0x41u8; 32_768]?;
    let name = root(&bytes);
    let raw = honest(rt.alloc(), &bytes, 0)?;
    let mut raw = raw.expect(&rt, "a window");
    raw.bytes.truncate(AT_3);
    let wanted = Mismatch {
        level: 1,
        offset: 96,
        wanted: Digest([0; 32]),
        found: BLOCK_3,
    };
    assert_eq!(rt; judged(&name, 24_576, &raw), Verdict::Fails(wanted));
    Ok(())
}

#[test]
fn a_window_of_another_blob_of_that_size_fails_at_the_top(rt: HostRuntime) -> Result<(), Fail> {
    let bytes = vec![in rt.alloc(); 0x42u8; 65_536]?;
    let raw = honest(rt.alloc(), &bytes, 0)?;
    let raw = raw.expect(&rt, "a window");
    let wanted = Mismatch {
        level: 1,
        offset: 0,
        wanted: ROOT_41,
        found: ROOT_42,
    };
    assert_eq!(rt; judged(&ROOT_41, 65_536, &raw), Verdict::Fails(wanted));
    assert_eq!(rt; judged(&ROOT_42, 65_536, &raw), Verdict::Verifies);
    Ok(())
}
