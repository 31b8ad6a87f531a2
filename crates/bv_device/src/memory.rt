//! A device in memory that keeps its trace, whose calls fail where it was told so.

ghost use Rattle.std.specs.Prelude.{◌≡◌, ◌<◌, ◌≤◌, ◌-◌, ◌^◌, length, replicate, take, Some, IfOk, OnOk, OnErr, refl, slice_get};
ghost use Rattle.spec_disk.specs.declared.event.Event.TheVariants.{Write, Sync};
ghost use Rattle.spec_disk.specs.Disk.{block};
ghost use Rattle.spec_disk.specs.Images.{IsImage};
ghost use Rattle.spec_faults.specs.Faults.{CountsFaults};
ghost use Rattle.bv_device.specs.Told.{now_of};
ghost use Rattle.bv_device.specs.Stop.{IsChosen};
ghost use Rattle.bv_device.specs.Memory.{HeldDevice, device_of, with_failing, with_read, with_write, with_sync, IsCounted, Reads, Logs};

use crate::schedule::Schedule;
use crate::stop::image_of;
use crate::traced::{Refusal, TracedDisk};
use crate::{Block, CallKind, Device, Event, Failed};
use std::alloc::{AllocError, Global};
use std::marker::Model;

/// A device in memory.
///
/// A call fails where `fail` named it, where it is a write or a sync and 2^63 - 1 of them were
/// made, or where it found no memory for its trace, which `short` counts.
#[derive(Drop)]
pub struct MemDevice {
    disk: TracedDisk,
    reads: Schedule,
    writes: Schedule,
    syncs: Schedule,
    faults: u64,
    short: u64,
}

impl Model for MemDevice {
    ghost Value = { HeldDevice };

    ghost view = { λ m. record {
      disk = m.disk;
      reads = m.reads.fails.items;
      writes = m.writes.fails.items;
      syncs = m.syncs.fails.items;
      faults = m.faults;
      short = m.short;
    } };
}

impl MemDevice {
    /// A device of so many blocks whose bytes are all zero.
    pub fn new(alloc: Global, blocks: u64) -> Result<MemDevice, AllocError>
        ensures { IfOk result (λ m. m ≡ device_of (replicate blocks (replicate 8192 0))) }
    {
        let mut zeros = Vec::new(alloc);
        zeros.resize(blocks as usize, [0u8; 8192])?;
        Ok(MemDevice::from_blocks(alloc, zeros))
    }

    /// A device that has these blocks at its opening.
    pub fn from_blocks(alloc: Global, blocks: Vec<Block>) -> MemDevice
        ensures { result ≡ device_of blocks.items }
    {
        MemDevice {
            disk: TracedDisk::new(alloc, blocks),
            reads: Schedule::new(alloc),
            writes: Schedule::new(alloc),
            syncs: Schedule::new(alloc),
            faults: 0,
            short: 0,
        }
    }

    /// Lets a call fail: the `nth` of this kind from now on, 1 being the next.
    pub fn fail(&mut self, _alloc: Global, kind: CallKind, nth: u64) -> Result<(), AllocError>
        requires { 0 < nth }
        ensures ok { OnOk result (self.new ≡ with_failing self.old kind nth) }
        ensures err { OnErr result (self.new ≡ self.old) }
    {
        match kind {
            CallKind::Read => self.reads.add(nth),
            CallKind::Write => self.writes.add(nth),
            CallKind::Sync => self.syncs.add(nth),
        }
    }

    /// How many writes and syncs left an event.
    pub fn trace_len(&self) -> u64
        ensures { result ≡ length self.now.disk.trace }
    {
        self.disk.trace().len() as u64
    }

    /// Event `k` of the trace, counted from 0.
    pub fn event(&self, k: u64) -> &Event
        requires { k < length self.now.disk.trace }
        ensures { slice_get self.now.disk.trace k ≡ Some result.now }
    {
        &self.disk.trace()[k as usize]
    }

    /// A device whose blocks are what a stop after the first `p` events may leave, by this choice.
    ///
    /// The sectors that may be one of several values are taken in rising order. Each takes the next
    /// byte c of `choice`: for 0 what was synced, else the cth value written since, or the last one
    /// where there are fewer. The last byte serves all sectors after it too, and an empty choice
    /// takes what was synced everywhere.
    pub fn stop_after(&self, alloc: Global, p: u64, choice: &[u8]) -> Result<MemDevice, AllocError>
        requires { p ≤ length self.now.disk.trace }
        ensures opened { IfOk result (λ m. m ≡ device_of m.disk.base) }
        ensures chosen { IfOk result (λ m. IsChosen self.now.disk.base (take p self.now.disk.trace)
            choice.now m.disk.base) }
        ensures image { IfOk result (λ m. IsImage self.now.disk.base (take p self.now.disk.trace)
            m.disk.base) }
    {
        let events = &self.disk.trace()[..p as usize];
        let image = image_of(alloc, self.disk.base(), events, choice)?;
        Ok(MemDevice::from_blocks(alloc, image))
    }

    /// How many calls failed for want of memory. At 2^64 - 1 it stands still.
    pub fn short(&self) -> u64
        ensures { result ≡ self.now.short }
    {
        self.short
    }
}

impl Device for MemDevice {
    ghost seen = { λ m. record {
      told = Some m.disk;
      block_count = length m.disk.base;
      calls_made = length m.disk.trace;
      fault_count = m.faults;
    } };

    ghost told_blocks = { λ m. refl };

    ghost told_calls = { λ m. refl };

    fn blocks(&self) -> u64 {
        self.disk.blocks()
    }

    fn calls(&self) -> u64 {
        self.disk.trace().len() as u64
    }

    fn faults(&self) -> u64 {
        self.faults
    }

    fn read(&mut self, at: u64, into: &mut Block) -> Result<(), Failed>
        requires { at < length self.old.disk.base }
        ensures ok { OnOk result (into.new ≡ block (now_of self.old.disk) at) }
        ensures held { Reads result self.old.reads (with_read self.old) self.new }
        ensures faults { CountsFaults self.old.faults self.new.faults result }
    {
        if self.reads.fails_next() {
            self.faults = self.faults.saturating_add(1);
            return Err(Failed);
        }
        *into = *self.disk.block(at);
        Ok(())
    }

    fn write(&mut self, at: u64, from: &Block) -> Result<(), Failed>
        requires { at < length self.old.disk.base }
        ensures held { Logs result (λ ok. Write at from.now ok) self.old.writes
            (with_write self.old) self.new }
        ensures faults { CountsFaults self.old.faults self.new.faults result }
    {
        let named = self.writes.fails_next();
        let logged = self.disk.write(at, from, !named);
        count(logged, named, &mut self.faults, &mut self.short)
    }

    fn sync(&mut self) -> Result<(), Failed>
        ensures held { Logs result (λ ok. Sync ok) self.old.syncs
            (with_sync self.old) self.new }
        ensures faults { CountsFaults self.old.faults self.new.faults result }
    {
        let named = self.syncs.fails_next();
        let logged = self.disk.sync(!named);
        count(logged, named, &mut self.faults, &mut self.short)
    }
}

/// Counts a write or a sync where it failed, and answers it.
fn count(
    logged: Result<(), Refusal>,
    named: bool,
    faults: &mut u64,
    short: &mut u64,
) -> Result<(), Failed>
    ensures exact { IsCounted result logged named faults.old short.old faults.new short.new }
    ensures faults { CountsFaults faults.old faults.new result }
{
    match logged {
        Ok(()) if !named => return Ok(()),
        Err(Refusal::NoMemory) => *short = short.saturating_add(1),
        _ => {}
    }
    *faults = faults.saturating_add(1);
    Err(Failed)
}
