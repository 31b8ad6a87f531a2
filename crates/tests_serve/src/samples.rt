//! Devices in memory whose bytes are written out by hand from the tables of the format, and runs of the
//! top call on them. Checksums are zlib's, and digests hashlib's.

use bv_device::{Block, MemDevice};
use bv_io::{MemSink, MemSource};
use bv_serve::{Status, run};
use std::alloc::{AllocError, Global};
use std::process::Abort;
use std::test::Fail;

/// The blob's line in a list.
pub const ROOT: &str = "df6d2bb7dac8a27c99a0ac498fabc106e94eab93dc88d40b2e313aeae33cb5a6 2\n";

/// The report of a volume without a blob.
pub const CLEAN: &str = "check: clean\nblobs 0\nbytes 0\nstale 0\n";

/// The superblock of 64 data blocks, 128 nodes and 16 journal blocks with no blob, but its zeros.
const SUPER: [u8; 88] = [
    0x62, 0x6c, 0x6f, 0x62, 0x76, 0x6f, 0x6c, 0x00, 0x70, 0x72, 0x6f, 0x66, 0x69, 0x6c, 0x65, 0x31,
    0x01, 0x00, 0x00, 0x00, 0x00, 0x00, 0x00, 0x00, 0x40, 0x00, 0x00, 0x00, 0x00, 0x00, 0x00, 0x00,
    0x80, 0x00, 0x00, 0x00, 0x00, 0x00, 0x00, 0x00, 0x10, 0x00, 0x00, 0x00, 0x00, 0x00, 0x00, 0x00,
    0x01, 0x00, 0x00, 0x00, 0x00, 0x00, 0x00, 0x00, 0x01, 0x00, 0x00, 0x00, 0x00, 0x00, 0x00, 0x00,
    0x00, 0x00, 0x00, 0x00, 0x00, 0x00, 0x00, 0x00, 0x01, 0x00, 0x00, 0x00, 0x00, 0x00, 0x00, 0x00,
    0x00, 0x00, 0x00, 0x00, 0x00, 0x00, 0x00, 0x00,
];

/// The info block of an empty journal whose first entry will have number 1, but its zeros.
const INFO: [u8; 36] = [
    0x6c, 0x6e, 0x72, 0x6a, 0x62, 0x6f, 0x6c, 0x62, 0x00, 0x00, 0x00, 0x00, 0x00, 0x00, 0x00, 0x00,
    0x00, 0x00, 0x00, 0x00, 0x00, 0x00, 0x00, 0x00, 0x01, 0x00, 0x00, 0x00, 0x00, 0x00, 0x00, 0x00,
    0x3e, 0xc0, 0xc5, 0x91,
];

/// The inode of the two bytes `hi`, which lie in data block 1.
const INODE: [u8; 64] = [
    0x01, 0x00, 0x01, 0x00, 0xff, 0xff, 0xff, 0xff, 0xdf, 0x6d, 0x2b, 0xb7, 0xda, 0xc8, 0xa2, 0x7c,
    0x99, 0xa0, 0xac, 0x49, 0x8f, 0xab, 0xc1, 0x06, 0xe9, 0x4e, 0xab, 0x93, 0xdc, 0x88, 0xd4, 0x0b,
    0x2e, 0x31, 0x3a, 0xea, 0xe3, 0x3c, 0xb5, 0xa6, 0x02, 0x00, 0x00, 0x00, 0x00, 0x00, 0x00, 0x00,
    0x01, 0x00, 0x00, 0x00, 0x01, 0x00, 0x00, 0x00, 0x01, 0x00, 0x00, 0x00, 0x00, 0x00, 0x01, 0x00,
];

/// The magic of the journal's entries, and the number 5.
const STALE: [u8; 16] = [
    0x79, 0x72, 0x74, 0x6e, 0x62, 0x6f, 0x6c, 0x62, 0x05, 0x00, 0x00, 0x00, 0x00, 0x00, 0x00, 0x00,
];

/// The header of entry 1 of the journal, with payloads for the three metadata blocks, but its zeros.
const HEADER: [u8; 64] = [
    0x79, 0x72, 0x74, 0x6e, 0x62, 0x6f, 0x6c, 0x62, 0x01, 0x00, 0x00, 0x00, 0x00, 0x00, 0x00, 0x00,
    0x01, 0x00, 0x00, 0x00, 0x00, 0x00, 0x00, 0x00, 0x00, 0x00, 0x00, 0x00, 0x00, 0x00, 0x00, 0x00,
    0x03, 0x00, 0x00, 0x00, 0x00, 0x00, 0x00, 0x00, 0x00, 0x00, 0x00, 0x00, 0x00, 0x00, 0x00, 0x00,
    0x01, 0x00, 0x00, 0x00, 0x00, 0x00, 0x00, 0x00, 0x02, 0x00, 0x00, 0x00, 0x00, 0x00, 0x00, 0x00,
];

/// Its commit, over the metadata of the volume with the blob, but its zeros.
const COMMIT: [u8; 36] = [
    0x79, 0x72, 0x74, 0x6e, 0x62, 0x6f, 0x6c, 0x62, 0x01, 0x00, 0x00, 0x00, 0x00, 0x00, 0x00, 0x00,
    0x02, 0x00, 0x00, 0x00, 0x00, 0x00, 0x00, 0x00, 0x00, 0x00, 0x00, 0x00, 0x00, 0x00, 0x00, 0x00,
    0x01, 0x70, 0x93, 0x88,
];

/// What a device of 83 blocks holds.
#[derive(Clone, Copy, Debug, PartialEq, Eq)]
pub enum Held {
    Zeros,
    /// A volume without a blob.
    Empty,
    /// The same, where the bit of data block 5 is set.
    WrongBit,
    /// The same, where slot 2 bears an entry's magic and the number 5.
    StaleSlot,
    /// A volume with the blob `hi`.
    OneBlob,
    /// The same, whose first byte is another.
    DamagedBlob,
    /// A volume without a blob whose journal holds the entry that adds it.
    Pending,
    /// The same, where a byte of a payload is another: the entry doesn't match its checksum.
    Torn,
}

impl Held {
    /// Whether it is a volume with a blob.
    fn has_blob(self) -> bool {
        matches!(self, Held::OneBlob | Held::DamagedBlob)
    }
}

/// Block `at` of what is held.
fn block_of(held: Held, at: u64) -> Block {
    match held {
        Held::Pending => pending_block(at),
        Held::Torn => torn_block(at),
        _ => plain_block(held, at),
    }
}

/// Block `at` of a volume whose journal holds an entry: in slots 0 to 4, which are blocks 4 to 8.
fn pending_block(at: u64) -> Block {
    let mut block = [0; 8192];
    match at {
        4 => block[..64].copy_from_slice(&HEADER),
        5..=7 => return plain_block(Held::OneBlob, at - 5),
        8 => block[..36].copy_from_slice(&COMMIT),
        20 => return plain_block(Held::OneBlob, at),
        _ => return plain_block(Held::Empty, at),
    }
    block
}

/// The same, where the last payload has another root.
fn torn_block(at: u64) -> Block {
    let mut block = pending_block(at);
    if at == 7 {
        block[8] = 0;
    }
    block
}

/// Block `at` of what is held where the journal is empty.
fn plain_block(held: Held, at: u64) -> Block {
    let mut block = [0; 8192];
    match (at, held) {
        (_, Held::Zeros) => {}
        (0, _) => block[..88].copy_from_slice(&SUPER),
        (1, Held::WrongBit) => block[0] = 33,
        (1, _) => block[0] = 1,
        (3, _) => block[..36].copy_from_slice(&INFO),
        (6, Held::StaleSlot) => block[..16].copy_from_slice(&STALE),
        _ => {}
    }
    if held.has_blob() {
        match at {
            0 => {
                block[64] = 1;
                block[72] = 2;
                block[80] = 1;
            }
            1 => block[0] = 3,
            2 => block[..64].copy_from_slice(&INODE),
            20 => {
                block[0] = if held == Held::OneBlob { b'h' } else { b'H' };
                block[1] = b'i';
            }
            _ => {}
        }
    }
    block
}

/// A device that holds this.
pub fn device_of(alloc: Global, held: Held) -> Result<MemDevice, AllocError> {
    let mut blocks = Vec::new(alloc);
    for at in 0..83 {
        blocks.push(block_of(held, at))?;
    }
    Ok(MemDevice::from_blocks(alloc, blocks))
}

/// A device with a volume of this version, one byte of it changed: block, offset and byte.
pub fn device_with(
    alloc: Global,
    held: Held,
    version: u8,
    change: (u64, usize, u8),
) -> Result<MemDevice, AllocError> {
    let (changed, offset, byte) = change;
    let mut blocks = Vec::new(alloc);
    for at in 0..83 {
        let mut block = block_of(held, at);
        if at == 0 {
            block[16] = version;
        }
        if at == changed && offset < 8192 {
            block[offset] = byte;
        }
        blocks.push(block)?;
    }
    Ok(MemDevice::from_blocks(alloc, blocks))
}

/// One command on a device: how it ended, what was printed, and the device.
pub fn done(
    alloc: Global,
    dev: MemDevice,
    word: &str,
) -> Result<(Status, MemSink, MemDevice), AllocError> {
    let mut words = Vec::new(alloc);
    words.push(String::from_str(alloc, word)?)?;
    let mut input = MemSource::new(Vec::new(alloc), Vec::new(alloc));
    let mut out = MemSink::new(Vec::new(alloc), alloc);
    let (ended, dev) = run(alloc, &words, dev, &mut input, &mut out);
    Ok((ended, out, dev))
}

/// Runs one command. The status and what was printed are these, and the device comes back.
pub fn prints<R: Abort>(
    rt: &R,
    alloc: Global,
    dev: MemDevice,
    word: &str,
    status: Status,
    text: &str,
) -> Result<MemDevice, Fail> {
    let (ended, out, dev) = done(alloc, dev, word)?;
    assert_eq!(rt; ended, status, "{word}");
    assert_eq!(rt; out.bytes(), text.as_bytes(), "{word}");
    Ok(dev)
}
