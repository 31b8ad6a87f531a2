//! Blocks in memory with their trace.

ghost use Rattle.std.specs.Prelude.{◌≡◌, ◌<◌, ◌-◌, ◌^◌, [], length, true, false, OnOk};
ghost use Rattle.spec_disk.specs.declared.event.Event.TheVariants.{Write, Sync};
ghost use Rattle.spec_disk.specs.Disk.{block};
ghost use Rattle.spec_disk.specs.Laws.{AreWhole};
ghost use Rattle.bv_device.specs.Told.{now_of};
ghost use Rattle.bv_device.specs.Memory.{base_of, IsLogged};

use crate::device::LAST_CALL;
use crate::{Block, Event};
use std::alloc::{AllocError, Global};
use std::marker::Model;

/// Why an event wasn't added.
#[derive(Clone, Copy, Debug, PartialEq, Eq)]
pub enum Refusal {
    Full,
    NoMemory,
}

/// Blocks in memory, and each write and sync since they were opened.
///
/// The blocks at the opening are copied at the first write: until then they are those of now.
#[derive(Drop)]
pub struct TracedDisk {
    opening: Vec<Block>,
    is_kept: bool,
    current: Vec<Block>,
    trace: Vec<Event>,
}

impl Model for TracedDisk {
    ghost use Rattle.std.specs.Prelude.{◌≡◌, ◌<◌, ◌^◌, length};
    ghost use Rattle.bv_device.specs.Told.{Disk};
    ghost use Rattle.bv_device.specs.Memory.{base_of, IsTraced};

    ghost Value = { Disk };

    ghost view = { λ m. record {
      base = base_of m.is_kept m.opening.items m.current.items;
      trace = m.trace.items;
    } };

    ghost invariant = { λ m. IsTraced (base_of m.is_kept m.opening.items m.current.items)
        m.current.items m.trace.items };
}

impl TracedDisk {
    /// These blocks, with no event yet.
    pub fn new(alloc: Global, blocks: Vec<Block>) -> TracedDisk
        ensures { result ≡ record { base = blocks.items; trace = [] } }
    {
        TracedDisk {
            opening: Vec::new(alloc),
            is_kept: false,
            current: blocks,
            trace: Vec::new(alloc),
        }
    }

    /// The number of blocks.
    pub fn blocks(&self) -> u64
        ensures count { result ≡ length self.now.base }
        ensures whole { AreWhole (now_of self.now) }
    {
        are_whole(&self.current);
        self.current.len() as u64
    }

    /// The blocks at the opening.
    pub fn base(&self) -> &[Block]
        ensures { result.now ≡ self.now.base }
    {
        if self.is_kept {
            &self.opening
        } else {
            &self.current
        }
    }

    /// The writes and syncs since, in order.
    pub fn trace(&self) -> &[Event]
        ensures events { result.now ≡ self.now.trace }
        ensures end { length self.now.trace < 2 ^ 63 }
    {
        &self.trace
    }

    /// What a read of block `at` gives.
    pub fn block(&self, at: u64) -> &Block
        requires { at < length self.now.base }
        ensures { result.now ≡ block (now_of self.now) at }
    {
        &self.current[at as usize]
    }

    /// Adds a write of block `at`, Ok or failed. A failed one changes no block.
    pub fn write(&mut self, at: u64, from: &Block, ok: bool) -> Result<(), Refusal>
        requires { at < length self.old.base }
        ensures { IsLogged result (Write at from.now ok) self.old self.new }
    {
        if ok {
            self.ok_write(at, from)
        } else {
            self.failed_write(at, from)
        }
    }

    fn ok_write(&mut self, at: u64, from: &Block) -> Result<(), Refusal>
        requires { at < length self.old.base }
        ensures { IsLogged result (Write at from.now true) self.old self.new }
    {
        if self.trace.len() as u64 == LAST_CALL {
            return Err(Refusal::Full);
        }
        if keep(&mut self.opening, &mut self.is_kept, &self.current).is_err() {
            return Err(Refusal::NoMemory);
        }
        let event = Event::Write {
            at,
            bytes: *from,
            ok: true,
        };
        if self.trace.push(event).is_err() {
            return Err(Refusal::NoMemory);
        }
        self.current[at as usize] = *from;
        Ok(())
    }

    fn failed_write(&mut self, at: u64, from: &Block) -> Result<(), Refusal>
        ensures { IsLogged result (Write at from.now false) self.old self.new }
    {
        if self.trace.len() as u64 == LAST_CALL {
            return Err(Refusal::Full);
        }
        let event = Event::Write {
            at,
            bytes: *from,
            ok: false,
        };
        if self.trace.push(event).is_err() {
            return Err(Refusal::NoMemory);
        }
        Ok(())
    }

    /// Adds a sync, Ok or failed.
    pub fn sync(&mut self, ok: bool) -> Result<(), Refusal>
        ensures { IsLogged result (Sync ok) self.old self.new }
    {
        if self.trace.len() as u64 == LAST_CALL {
            return Err(Refusal::Full);
        }
        if self.trace.push(Event::Sync { ok }).is_err() {
            return Err(Refusal::NoMemory);
        }
        Ok(())
    }
}

/// Each block has the bytes that its type has.
fn are_whole(_blocks: &[Block])
    ensures { AreWhole _blocks.now }
{}

/// Keeps the blocks at the opening apart from those of now.
fn keep(opening: &mut Vec<Block>, is_kept: &mut bool, current: &[Block]) -> Result<(), AllocError>
    ensures base { base_of is_kept.new opening.new.items current.now
        ≡ base_of is_kept.old opening.old.items current.now }
    ensures ok { OnOk result (is_kept.new ≡ true) }
{
    if *is_kept {
        return Ok(());
    }
    opening.clear();
    opening.extend_from_slice(current)?;
    *is_kept = true;
    Ok(())
}
