//! What a device of blocks is.

ghost use Rattle.std.specs.Prelude.{◌≡◌, ◌<◌, ◌-◌, ◌^◌, length, IfSome, OnOk, IsTrue};
ghost use Rattle.spec_disk.specs.Disk.{block, reads_right};
ghost use Rattle.spec_disk.specs.Laws.{AreWhole};
ghost use Rattle.spec_faults.specs.Faults.{CountsFaults};
ghost use Rattle.bv_device.specs.Told.{now_of};
ghost use Rattle.bv_device.specs.Plan.{a_write, a_sync};
ghost use Rattle.bv_device.specs.Seen.{Seen, Performs};

use crate::{Block, Failed};

/// How many writes and syncs a device makes at most: each further one fails.
pub const LAST_CALL: u64 = 0x7fff_ffff_ffff_ffff;

/// A row of blocks of 8,192 bytes, counted from 0.
///
/// A write is on the device for good once a sync after it was Ok. Until then a stop of the machine
/// may leave any of its sectors of 512 bytes, or none; the same holds of a write that failed.
pub trait Device {
    /// What a contract sees of it.
    ghost seen: { Self → Seen };

    /// The number of blocks. What is told has none that is shorter or longer than a block.
    fn blocks(&self) -> u64
        ensures count { result ≡ (seen self.now).block_count }
        ensures whole { IfSome (seen self.now).told (λ d. AreWhole (now_of d)) };

    /// The number of writes and syncs so far. One that failed may have left an event, and counts
    /// then, or none.
    fn calls(&self) -> u64
        ensures exact { result ≡ (seen self.now).calls_made }
        ensures end { result < 2 ^ 63 };

    /// The number of calls that failed. At 2^64 - 1 it stands still.
    fn faults(&self) -> u64
        ensures { result ≡ (seen self.now).fault_count };

    /// Reads block `at`. Where the last write to it failed and no sync was Ok since, it may be
    /// anything; and so may `into` after `Failed`.
    fn read(&mut self, at: u64, into: &mut Block) -> Result<(), Failed>
        requires { at < (seen self.old).block_count }
        ensures ok { OnOk result (IfSome (seen self.old).told
            (λ d. IsTrue (reads_right d.trace at) → into.new ≡ block (now_of d) at)) }
        ensures told { (seen self.new).told ≡ (seen self.old).told }
        ensures blocks { (seen self.new).block_count ≡ (seen self.old).block_count }
        ensures calls { (seen self.new).calls_made ≡ (seen self.old).calls_made }
        ensures faults { CountsFaults (seen self.old).fault_count (seen self.new).fault_count
            result };

    /// Writes block `at`. The call fails where 2^63 - 1 writes and syncs were made.
    fn write(&mut self, at: u64, from: &Block) -> Result<(), Failed>
        requires { at < (seen self.old).block_count }
        ensures performs { Performs result (a_write at from.now) (seen self.old) (seen self.new) }
        ensures end { OnOk result ((seen self.old).calls_made < 2 ^ 63 - 1) };

    /// Makes all writes so far last. The call fails where 2^63 - 1 writes and syncs were made.
    fn sync(&mut self) -> Result<(), Failed>
        ensures performs { Performs result a_sync (seen self.old) (seen self.new) }
        ensures end { OnOk result ((seen self.old).calls_made < 2 ^ 63 - 1) };

    /// What is told has a base of as many blocks as there are.
    ghost told_blocks: { (dev : Self)
        → IfSome (seen dev).told (λ d. length d.base ≡ (seen dev).block_count) };

    /// What is told has an event for each call that counts.
    ghost told_calls: { (dev : Self)
        → IfSome (seen dev).told (λ d. length d.trace ≡ (seen dev).calls_made) };
}
