//! A device in memory whose reads lie where they were told so.

ghost use Rattle.std.specs.Prelude.{◌≡◌, ◌<◌, ◌+◌, ◌-◌, ◌^◌, length, None, IsOk, OnOk, OnErr, slice_set};
ghost use Rattle.spec_disk.specs.Disk.{block};
ghost use Rattle.spec_faults.specs.Faults.{one_more, CountsFaults};
ghost use Rattle.bv_device.specs.Lying.{LyingBlocks, answer};

use crate::device::LAST_CALL;
use crate::{Block, Device, Failed, Lie};
use std::alloc::Global;
use std::marker::Model;

/// Blocks in memory that tell nothing of themselves, and some reads of which give other bytes.
#[derive(Drop)]
pub struct LyingDevice {
    blocks: Vec<Block>,
    lies: Vec<Lie>,
    reads: u64,
    calls: u64,
    faults: u64,
}

impl Model for LyingDevice {
    ghost use Rattle.std.specs.Prelude.{◌<◌, ◌^◌};
    ghost use Rattle.bv_device.specs.Lying.{LyingBlocks};

    ghost Value = { LyingBlocks };

    ghost view = { λ m. record {
      blocks = m.blocks.items;
      lies = m.lies.items;
      reads = m.reads;
      calls = m.calls;
      faults = m.faults;
    } };

    ghost invariant = { λ m. m.calls < 2 ^ 63 };
}

impl LyingDevice {
    /// A device that holds these blocks and tells these lies.
    pub fn new(_alloc: Global, blocks: Vec<Block>, lies: Vec<Lie>) -> LyingDevice
        ensures { result ≡ record {
          blocks = blocks.items;
          lies = lies.items;
          reads = 0;
          calls = 0;
          faults = 0;
        } }
    {
        LyingDevice {
            blocks,
            lies,
            reads: 0,
            calls: 0,
            faults: 0,
        }
    }
}

impl Device for LyingDevice {
    ghost seen = { λ m. record {
      told = None;
      block_count = length m.blocks;
      calls_made = m.calls;
      fault_count = m.faults;
    } };

    ghost told_blocks = { λ _. tt };

    ghost told_calls = { λ _. tt };

    fn blocks(&self) -> u64 {
        self.blocks.len() as u64
    }

    fn calls(&self) -> u64 {
        self.calls
    }

    fn faults(&self) -> u64 {
        self.faults
    }

    fn read(&mut self, at: u64, into: &mut Block) -> Result<(), Failed>
        requires { at < length self.old.blocks }
        ensures ok { IsOk result }
        ensures bytes { into.new
            ≡ answer self.old.lies (self.old.reads + 1) (block self.old.blocks at) }
        ensures held { self.new ≡ record self.old { reads = one_more self.old.reads } }
    {
        *into = *answer_of(&self.lies, self.reads, &self.blocks[at as usize]);
        self.reads = self.reads.saturating_add(1);
        Ok(())
    }

    fn write(&mut self, at: u64, from: &Block) -> Result<(), Failed>
        requires { at < length self.old.blocks }
        ensures ok { OnOk result (self.new ≡ record self.old {
          blocks = slice_set self.old.blocks at from.now;
          calls = self.old.calls + 1;
        }) }
        ensures end { OnOk result (self.old.calls < 2 ^ 63 - 1) }
        ensures err { OnErr result ((self.old.calls ≡ 2 ^ 63 - 1)
            × (self.new ≡ record self.old { faults = one_more self.old.faults })) }
        ensures faults { CountsFaults self.old.faults self.new.faults result }
    {
        if self.calls == LAST_CALL {
            self.faults = self.faults.saturating_add(1);
            return Err(Failed);
        }
        self.calls += 1;
        self.blocks[at as usize] = *from;
        Ok(())
    }

    fn sync(&mut self) -> Result<(), Failed>
        ensures ok { OnOk result (self.new ≡ record self.old { calls = self.old.calls + 1 }) }
        ensures end { OnOk result (self.old.calls < 2 ^ 63 - 1) }
        ensures err { OnErr result ((self.old.calls ≡ 2 ^ 63 - 1)
            × (self.new ≡ record self.old { faults = one_more self.old.faults })) }
        ensures faults { CountsFaults self.old.faults self.new.faults result }
    {
        if self.calls == LAST_CALL {
            self.faults = self.faults.saturating_add(1);
            return Err(Failed);
        }
        self.calls += 1;
        Ok(())
    }
}

/// What the read after so many reads gives of a block that holds `held`.
fn answer_of<'a>(lies: &'a [Lie], reads: u64, held: &'a Block) -> &'a Block
    ensures { result.now ≡ answer lies.now (reads + 1) held.now }
{
    for lie in lies {
        if lie.call > reads && lie.call - reads == 1 {
            return &lie.bytes;
        }
    }
    held
}
