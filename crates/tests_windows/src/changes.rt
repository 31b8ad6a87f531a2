//! Each byte of a window and of its path changed in turn: what fails first is what an independent
//! reading of the definition gives.

use crate::blobs::{Verdict, halves, honest, judged, seq};
use bv_merkle::{Digest, root};
use bv_proof::RawWindow;
use sha2::{Digest as _, Sha256};
use std::alloc::Global;
use std::test::Fail;

/// What a byte is changed by.
const CHANGE: u8 = 0x5a;

/// A blob, and the hash of all that verification said of windows of it.
#[derive(Drop)]
struct Tally {
    name: Digest,
    size: u64,
    hasher: Sha256,
}

impl Tally {
    /// Adds what verification says of a window: its mismatch, or one byte.
    fn add(&mut self, raw: &RawWindow) {
        match judged(&self.name, self.size, raw) {
            Verdict::Misfit => self.hasher.update(&[1]),
            Verdict::Verifies => self.hasher.update(&[0]),
            Verdict::Fails(mismatch) => {
                self.hasher.update(&mismatch.level.to_le_bytes());
                self.hasher.update(&mismatch.offset.to_le_bytes());
                self.hasher.update(&mismatch.wanted.0);
                self.hasher.update(&mismatch.found.0);
            }
        }
    }

    /// Adds what it says with each byte of the window changed in turn.
    fn add_data_changes(&mut self, raw: &mut RawWindow) {
        for at in 0..raw.bytes.len() {
            change(&mut raw.bytes, at);
            self.add(raw);
            change(&mut raw.bytes, at);
        }
    }

    /// Adds what it says with each byte of a block of the path changed in turn.
    fn add_block_changes(&mut self, raw: &mut RawWindow, level: usize) {
        for at in 0..8192 {
            change_path(raw, level, at);
            self.add(raw);
            change_path(raw, level, at);
        }
    }
}

/// Changes a byte, or changes it back.
fn change(bytes: &mut [u8], at: usize) {
    if let Some(byte) = bytes.get_mut(at) {
        *byte ^= CHANGE;
    }
}

/// Changes a byte of a block of the path, or changes it back.
fn change_path(raw: &mut RawWindow, level: usize, at: usize) {
    if let Some(block) = raw.path.get_mut(level) {
        change(block, at);
    }
}

/// Adds what verification says of a window of these bytes: as it is, and with each byte changed.
fn add_window(alloc: Global, tally: &mut Tally, bytes: &[u8], window: u64) -> Result<(), Fail> {
    let Some(mut raw) = honest(alloc, bytes, window)? else {
        return Ok(());
    };
    tally.add(&raw);
    tally.add_data_changes(&mut raw);
    for level in 0..raw.path.len() {
        tally.add_block_changes(&mut raw, level);
    }
    Ok(())
}

/// The hash of what verification says of these windows of a blob, each with its changes.
fn each_byte(alloc: Global, size: u32, windows: &[u64]) -> Result<[u128; 2], Fail> {
    let bytes = seq(alloc, size)?;
    let mut tally = Tally {
        name: root(&bytes),
        size: size as u64,
        hasher: Sha256::new(),
    };
    for window in windows {
        add_window(alloc, &mut tally, &bytes, *window)?;
    }
    Ok(halves(&Digest(tally.hasher.finalize())))
}

#[test]
fn each_byte_of_the_empty_blob_is_compared(rt: HostRuntime) -> Result<(), Fail> {
    let wanted = [
        0x6e340b9cffb37a989ca544e6bb780a2c,
        0x78901d3fb33738768511a30617afa01d,
    ];
    assert_eq!(rt; each_byte(rt.alloc(), 0, &[0])?, wanted);
    Ok(())
}

#[test]
fn each_byte_of_a_blob_of_one_byte_is_compared(rt: HostRuntime) -> Result<(), Fail> {
    let wanted = [
        0x59bfee9fdb3e13f31cc364f6e56c190f,
        0x1d2c87f17f91c01fdf9a606744ce69ca,
    ];
    assert_eq!(rt; each_byte(rt.alloc(), 1, &[0])?, wanted);
    Ok(())
}

#[test]
fn each_byte_of_a_blob_of_one_block_is_compared(rt: HostRuntime) -> Result<(), Fail> {
    let wanted = [
        0x82f61f9252409da6abb20f1dc9d60b7b,
        0x77cfdbe01c0fd9d8f2733fd3755b3c50,
    ];
    assert_eq!(rt; each_byte(rt.alloc(), 8192, &[0])?, wanted);
    Ok(())
}

#[test]
fn each_byte_of_a_blob_of_one_block_and_a_byte_is_compared(rt: HostRuntime) -> Result<(), Fail> {
    let wanted = [
        0x84310f537e63a230ad3ff50c9024e0ab,
        0x2852e6729d704bf935f08cd20c229337,
    ];
    assert_eq!(rt; each_byte(rt.alloc(), 8193, &[0])?, wanted);
    Ok(())
}

#[test]
fn each_byte_of_a_blob_of_one_window_is_compared(rt: HostRuntime) -> Result<(), Fail> {
    let wanted = [
        0x2a7407c9f3e7f9b4402bc4694519c494,
        0xeff6da0c819030ac82fe4db99351dbfa,
    ];
    assert_eq!(rt; each_byte(rt.alloc(), 65_536, &[0])?, wanted);
    Ok(())
}

#[test]
fn each_byte_of_a_blob_of_one_window_and_a_byte_is_compared(rt: HostRuntime) -> Result<(), Fail> {
    let wanted = [
        0x14ff5bca7043d42899bdd4778dc5648b,
        0xdeeca492e4980024704648a694c9f9e4,
    ];
    assert_eq!(rt; each_byte(rt.alloc(), 65_537, &[0, 1])?, wanted);
    Ok(())
}

#[test]
fn each_byte_of_a_blob_of_one_level_is_compared(rt: HostRuntime) -> Result<(), Fail> {
    let wanted = [
        0x5d56147b057c44742de0ec514063ffff,
        0x7a1078a69b88abaa4ec136478cb13434,
    ];
    assert_eq!(rt; each_byte(rt.alloc(), 2_097_152, &[31])?, wanted);
    Ok(())
}

#[test]
fn each_byte_of_a_blob_of_two_levels_is_compared(rt: HostRuntime) -> Result<(), Fail> {
    let wanted = [
        0x2a37c3bb57cfa435c1968c011ac65c84,
        0x8c065a388b0196edae94c67f1fcb90a6,
    ];
    assert_eq!(rt; each_byte(rt.alloc(), 2_097_153, &[0, 32])?, wanted);
    Ok(())
}
