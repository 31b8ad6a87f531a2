//! The adapters over readers, writers and files, and what the program answers to its words.
ghost use Rattle.std.specs.Prelude.{◌≤◌, IfOk};

use crate::file_device::FileDevice;
use crate::host_files::HostFiles;
use crate::program::answer;
use crate::reader_source::ReaderSource;
use crate::writer_sink::WriterSink;
use bv_device::Device;
use bv_io::{Failed, MemSink, MemSource, Sink, Source, fill, give_all};
use bv_serve::Status;
use std::alloc::{AllocError, Global};
use std::cell::Cell;
use std::fs::{self, File, Metadata, OpenFile};
use std::io::{self, Error, ErrorKind, Read};
use std::os::unix::fs::FileExt;
use std::sync::Wait;
use std::test::Fail;
use std::thread::Threads;

// A reader that is interrupted once before each byte, and breaks after the third.
#[derive(Drop)]
struct Restless {
    calls: u8,
}

impl Read for Restless {
    fn read(&mut self, buf: &mut [u8]) -> io::Result<usize> {
        self.calls = self.calls.saturating_add(1);
        if self.calls % 2 == 1 {
            return Err(Error::from(ErrorKind::Interrupted));
        }
        if self.calls > 6 {
            return Err(Error::from(ErrorKind::Other));
        }
        if let Some(first) = buf.first_mut() {
            *first = self.calls;
            return Ok(1);
        }
        Ok(0)
    }
}

#[test]
fn a_reader_is_a_source(rt: HostRuntime) {
    let bytes: &[u8] = &[7, 8, 9];
    let mut source = ReaderSource::new(bytes);
    let mut buffer = [0; 4];
    assert_eq!(rt; fill(&mut source, &mut buffer), Ok(3));
    assert_eq!(rt; buffer.as_slice(), [7, 8, 9, 0].as_slice());
    let mut restless = ReaderSource::new(Restless { calls: 0 });
    assert_eq!(rt; fill(&mut restless, &mut buffer[..3]), Ok(3));
    assert_eq!(rt; buffer.as_slice(), [2, 4, 6, 0].as_slice());
    assert_eq!(rt; restless.take(&mut buffer), Err(Failed));
}

#[test]
fn a_writer_is_a_sink_and_one_that_takes_nothing_fails(rt: HostRuntime) {
    let mut room = [0; 3];
    let mut sink = WriterSink::new(room.as_mut_slice());
    assert_eq!(rt; give_all(&mut sink, &[7]), Ok(()));
    assert_eq!(rt; give_all(&mut sink, &[8, 9, 10]), Err(Failed));
    assert_eq!(rt; sink.give(&[]), Ok(0));
    assert_eq!(rt; room.as_slice(), [7, 8, 9].as_slice());
}

// A file that moves half of what it is asked for, is interrupted at every second call, and breaks
// at one of them.
#[derive(Drop)]
struct Restive {
    calls: Cell<u64>,
    breaks: u64,
}

impl Restive {
    fn step(&self, most: usize) -> io::Result<usize>
        ensures { IfOk result (λ n. n ≤ most) }
    {
        let call = self.calls.get().wrapping_add(1);
        self.calls.set(call);
        if call == self.breaks {
            return Err(Error::from(ErrorKind::Other));
        }
        if call % 2 == 1 {
            return Err(Error::from(ErrorKind::Interrupted));
        }
        Ok(most.div_ceil(2))
    }
}

impl FileExt for Restive {
    fn read_at(&self, buf: &mut [u8], _offset: u64) -> io::Result<usize> {
        self.step(buf.len())
    }

    fn write_at(&self, buf: &[u8], _offset: u64) -> io::Result<usize> {
        self.step(buf.len())
    }
}

impl OpenFile for Restive {
    fn metadata(&self) -> io::Result<Metadata> {
        Err(Error::from(ErrorKind::Other))
    }

    fn set_len(&self, _size: u64) -> io::Result<()> {
        Err(Error::from(ErrorKind::Other))
    }

    fn sync_all(&self) -> io::Result<()> {
        Err(Error::from(ErrorKind::Other))
    }

    fn sync_data(&self) -> io::Result<()> {
        self.step(1).map(|_| ())
    }
}

#[test]
fn a_file_counts_each_call_that_fails(rt: HostRuntime) {
    let mut block = [0; 8192];
    // A block is moved in 14 halves, each after an interruption.
    for (breaks, works) in [(1, false), (28, false), (29, true)] {
        let calls = Cell::new(0);
        let mut dev = FileDevice::new(Restive { calls, breaks }, 3);
        assert_eq!(rt; dev.write(2, &block).is_ok(), works, "{breaks}");
        assert_eq!(rt; (dev.calls(), dev.faults()), (1, !works as u64), "{breaks}");
        let calls = Cell::new(0);
        let mut dev = FileDevice::new(Restive { calls, breaks }, 3);
        assert_eq!(rt; dev.read(2, &mut block).is_ok(), works, "{breaks}");
        assert_eq!(rt; (dev.calls(), dev.faults()), (0, !works as u64), "{breaks}");
    }
    for (breaks, works) in [(2, false), (3, true)] {
        let calls = Cell::new(1);
        let mut dev = FileDevice::new(Restive { calls, breaks }, 3);
        assert_eq!(rt; dev.sync().is_ok(), works, "{breaks}");
        assert_eq!(rt; (dev.calls(), dev.faults()), (1, !works as u64), "{breaks}");
    }
}

// The status of these words, where the program prints what begins so.
fn answers<R: Threads + Wait + Sync>(
    rt: &HostRuntime,
    threads: &R,
    line: &str,
    first: &str,
) -> Result<Option<Status>, AllocError> {
    let alloc: Global = rt.alloc();
    let mut words = Vec::new(alloc);
    for word in line.split_whitespace() {
        words.push(String::from_str(alloc, word)?)?;
    }
    let mut files = HostFiles::new(rt);
    let mut input = MemSource::new(Vec::new(alloc), Vec::new(alloc));
    let mut out = MemSink::new(Vec::new(alloc), alloc);
    let status = answer(threads, alloc, &words, &mut files, &mut input, &mut out);
    Ok(out.bytes().starts_with(first.as_bytes()).then_some(status))
}

#[test]
fn words_are_answered_as_their_forms_say(rt: HostRuntime) -> Result<(), Fail> {
    let rows = [
        ("--help", "blobfs: a volume of blobs", Status::Ok),
        ("--version", "blobfs 0.1.0\n", Status::Ok),
        ("root", "15ec7bf0b50732b4", Status::Ok),
        ("mem:1 root", "15ec7bf0b50732b4", Status::Ok),
        ("help", "usage: root | format B N J |", Status::Usage),
        ("format 64 128 16", "usage:", Status::Usage),
        ("mem:0 root", "usage:", Status::Usage),
        ("mem:065 root", "usage:", Status::Usage),
        ("mem:65537 root", "usage:", Status::Usage),
        ("new:8388609:absent.img root", "usage:", Status::Usage),
        ("new:83 root", "usage:", Status::Usage),
        ("new:83:absent.img", "usage:", Status::Usage),
        ("new:83:absent.img format 64 128", "usage:", Status::Usage),
        ("disk:absent.img root", "usage:", Status::Usage),
        ("file:absent.img frob", "usage:", Status::Usage),
        ("file:absent.img root", "device: fault\n", Status::Device),
        (
            "new:1:absent/absent.img root",
            "device: fault\n",
            Status::Device,
        ),
        ("mem:83 format 64 128 16", "formatted\n", Status::Ok),
        (
            "mem:83 fresh 64 128 16",
            "history\n1 16 0 unmount unmounted @",
            Status::Ok,
        ),
        ("mem:83 fresh 64 128", "usage:", Status::Usage),
        ("mem:83 demo 33", "usage:", Status::Usage),
        ("mem:83 script", "volume: magic\n", Status::Volume),
        (
            "mem:82 format 64 128 16",
            "volume: short 83 82\n",
            Status::Volume,
        ),
    ];
    for (line, first, want) in rows {
        assert_eq!(rt; answers(&rt, &rt, line, first)?, Some(want), "{line}");
    }
    assert!(rt; fs::metadata(&rt, "absent.img").is_err());
    Ok(())
}

// The superblock of 64 data blocks, 128 nodes and 16 journal blocks with no blob, in version 1, but
// its zeros. It is written out from the table of its fields.
const SUPER: [u8; 88] = [
    0x62, 0x6c, 0x6f, 0x62, 0x76, 0x6f, 0x6c, 0x00, 0x70, 0x72, 0x6f, 0x66, 0x69, 0x6c, 0x65, 0x31,
    0x01, 0x00, 0x00, 0x00, 0x00, 0x00, 0x00, 0x00, 0x40, 0x00, 0x00, 0x00, 0x00, 0x00, 0x00, 0x00,
    0x80, 0x00, 0x00, 0x00, 0x00, 0x00, 0x00, 0x00, 0x10, 0x00, 0x00, 0x00, 0x00, 0x00, 0x00, 0x00,
    0x01, 0x00, 0x00, 0x00, 0x00, 0x00, 0x00, 0x00, 0x01, 0x00, 0x00, 0x00, 0x00, 0x00, 0x00, 0x00,
    0x00, 0x00, 0x00, 0x00, 0x00, 0x00, 0x00, 0x00, 0x01, 0x00, 0x00, 0x00, 0x00, 0x00, 0x00, 0x00,
    0x00, 0x00, 0x00, 0x00, 0x00, 0x00, 0x00, 0x00,
];

// The info block of an empty journal whose first entry will have number 1, but its zeros. The
// checksum is zlib's.
const INFO: [u8; 36] = [
    0x6c, 0x6e, 0x72, 0x6a, 0x62, 0x6f, 0x6c, 0x62, 0x00, 0x00, 0x00, 0x00, 0x00, 0x00, 0x00, 0x00,
    0x00, 0x00, 0x00, 0x00, 0x00, 0x00, 0x00, 0x00, 0x01, 0x00, 0x00, 0x00, 0x00, 0x00, 0x00, 0x00,
    0x3e, 0xc0, 0xc5, 0x91,
];

// Block `at` of this volume, for a block before the first data block.
fn block_of(at: u64, version: u8) -> [u8; 8192] {
    let mut block = [0; 8192];
    match at {
        0 => {
            block[..88].copy_from_slice(&SUPER);
            block[16] = version;
        }
        1 => block[0] = 1,
        3 => block[..36].copy_from_slice(&INFO),
        _ => {}
    }
    block
}

// The bytes of a file of 83 blocks with this volume: the superblock in block 0, the bitmap in block
// 1, where only data block 0 is used, and the info block in block 3.
fn volume(alloc: Global, version: u8) -> Result<Vec<u8>, AllocError> {
    let mut bytes = Vec::new(alloc);
    for at in 0..83 {
        bytes.extend_from_slice(&block_of(at, version))?;
    }
    Ok(bytes)
}

#[test]
fn a_new_file_is_formatted_and_opened_again(rt: HostRuntime) -> Result<(), Fail> {
    let status = answers(&rt, &rt, "new:83:disk.img format 64 128 16", "formatted\n")?;
    assert_eq!(rt; status, Some(Status::Ok));
    let made = volume(rt.alloc(), 1)?;
    assert!(rt; fs::read(&rt, "disk.img")? == made);
    let status = answers(
        &rt,
        &rt,
        "new:90:disk.img format2 64 128 16",
        "device: fault\n",
    )?;
    assert_eq!(rt; status, Some(Status::Device));
    assert!(rt; fs::read(&rt, "disk.img")? == made);
    let status = answers(&rt, &rt, "file:disk.img format2 64 128 16", "formatted\n")?;
    assert_eq!(rt; status, Some(Status::Ok));
    let made = volume(rt.alloc(), 2)?;
    assert!(rt; fs::read(&rt, "disk.img")? == made);
    let mut dev = FileDevice::new(File::open(&rt, "disk.img")?, 83);
    let mut block = [0xaa; 8192];
    assert_eq!(rt; dev.read(3, &mut block), Ok(()));
    assert!(rt; block.as_slice() == block_of(3, 2).as_slice());
    assert_eq!(rt; dev.read(0, &mut block), Ok(()));
    assert!(rt; block.as_slice() == block_of(0, 2).as_slice());
    fs::remove_file(&rt, "disk.img")?;
    Ok(())
}

#[test]
fn one_program_writes_a_file_or_several_read_it(rt: HostRuntime) -> Result<(), Fail> {
    let made = answers(&rt, &rt, "new:83:held.img format 64 128 16", "formatted\n")?;
    assert_eq!(rt; made, Some(Status::Ok));
    let held = File::open(&rt, "held.img")?;
    held.lock_shared()?;
    let listed = answers(&rt, &rt, "file:held.img list", "")?;
    assert_eq!(rt; listed, Some(Status::Ok));
    let refused = answers(&rt, &rt, "file:held.img recover", "device: fault\n")?;
    assert_eq!(rt; refused, Some(Status::Device));
    held.lock()?;
    let refused = answers(&rt, &rt, "file:held.img check", "device: fault\n")?;
    assert_eq!(rt; refused, Some(Status::Device));
    held.unlock()?;
    let recovered = answers(&rt, &rt, "file:held.img recover", "recovered 0\n")?;
    assert_eq!(rt; recovered, Some(Status::Ok));
    fs::remove_file(&rt, "held.img")?;
    Ok(())
}

#[test]
fn a_file_of_less_than_a_block_has_none(rt: HostRuntime) -> Result<(), Fail> {
    fs::write(&rt, "short.img", "less than a block")?;
    let status = answers(
        &rt,
        &rt,
        "file:short.img format 64 128 16",
        "volume: short 83 0\n",
    )?;
    assert_eq!(rt; status, Some(Status::Volume));
    fs::remove_file(&rt, "short.img")?;
    Ok(())
}
