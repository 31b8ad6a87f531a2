//! A file as a device of blocks.
ghost use Rattle.std.specs.Prelude.{◌≡◌, ◌<◌, ◌^◌, ◌-◌, OnOk};
ghost use Rattle.bv_device.specs.Plan.{a_write, a_sync};
ghost use Rattle.bv_device.specs.Seen.{Performs};
ghost use Rattle.bv_main.specs.Files.{one_call_more, seen_of};

use bv_device::{Block, Device, Failed, LAST_CALL};
use std::fs::OpenFile;
use std::io::Error;
use std::marker::Model;
use std::os::unix::fs::FileExt;

/// The bytes of a block.
pub const BLOCK: u64 = 8192;

/// The whole blocks of an open file. What lies behind them is never touched.
///
/// Each call is one positioned read or write of a block, or a sync of the file's data. It knows
/// nothing of the bytes: what the file holds, and what of it lasts, is the system's.
#[derive(Drop)]
pub struct FileDevice<F> {
    file: F,
    blocks: u64,
    calls: u64,
    faults: u64,
    cause: Option<Error>,
}

impl<F> Model for FileDevice<F> {
    ghost use Rattle.std.specs.Prelude.{◌<◌, ◌^◌};
    ghost use Rattle.bv_main.specs.Files.{FileBlocks};

    ghost Value = { FileBlocks };

    ghost view = { λ d. record { blocks = d.blocks; calls = d.calls; faults = d.faults } };

    ghost invariant = { λ d. (d.blocks < 2 ^ 51) × (d.calls < 2 ^ 63) };
}

impl<F> FileDevice<F> {
    /// A file that has so many blocks, or more.
    pub fn new(file: F, blocks: u64) -> FileDevice<F>
        requires { blocks < 2 ^ 51 }
        ensures { result ≡ record { blocks = blocks; calls = 0; faults = 0 } }
    {
        FileDevice {
            file,
            blocks,
            calls: 0,
            faults: 0,
            cause: None,
        }
    }

    /// Why the last call that failed did so, where the system said.
    pub fn cause(&self) -> Option<Error> {
        self.cause
    }
}

impl<F: FileExt + OpenFile> Device for FileDevice<F> {
    ghost seen = { λ file. seen_of file };

    ghost told_blocks = { λ _. tt };

    ghost told_calls = { λ _. tt };

    fn blocks(&self) -> u64 {
        self.blocks
    }

    fn calls(&self) -> u64 {
        self.calls
    }

    fn faults(&self) -> u64 {
        self.faults
    }

    fn read(&mut self, at: u64, into: &mut Block) -> Result<(), Failed> {
        match self.file.read_exact_at(into, at * BLOCK) {
            Ok(()) => return Ok(()),
            Err(error) => self.cause = Some(error),
        }
        self.faults = self.faults.saturating_add(1);
        Err(Failed)
    }

    // A write that failed may have changed part of the block, so it counts as made.
    fn write(&mut self, at: u64, from: &Block) -> Result<(), Failed>
        requires { at < self.old.blocks }
        ensures performs { Performs result (a_write at from.now)
            (seen_of self.old) (seen_of self.new) }
        ensures asked { self.new.calls ≡ one_call_more self.old.calls }
        ensures end { OnOk result (self.old.calls < 2 ^ 63 - 1) }
    {
        if self.calls < LAST_CALL {
            self.calls += 1;
            match self.file.write_all_at(from, at * BLOCK) {
                Ok(()) => return Ok(()),
                Err(error) => self.cause = Some(error),
            }
        }
        self.faults = self.faults.saturating_add(1);
        Err(Failed)
    }

    fn sync(&mut self) -> Result<(), Failed>
        ensures performs { Performs result a_sync (seen_of self.old) (seen_of self.new) }
        ensures asked { self.new.calls ≡ one_call_more self.old.calls }
        ensures end { OnOk result (self.old.calls < 2 ^ 63 - 1) }
    {
        if self.calls < LAST_CALL {
            self.calls += 1;
            match self.file.sync_data() {
                Ok(()) => return Ok(()),
                Err(error) => self.cause = Some(error),
            }
        }
        self.faults = self.faults.saturating_add(1);
        Err(Failed)
    }
}
