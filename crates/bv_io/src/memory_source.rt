//! A source over bytes in memory, whose calls fail where it was told so.
ghost use Rattle.std.specs.Prelude.{◌≡◌, ◌↔◌, ◌≤◌, [], min, drop, length, Some, IfOk, OnErr, IsErr};
ghost use Rattle.std.specs.Io.KnownBytes.{Keeps};
ghost use Rattle.bv_io.specs.Faults.{one_more, CountsFaults};
ghost use Rattle.bv_io.specs.Streams.{Takes};
ghost use Rattle.bv_io.specs.Memory.{HeldSource, IsNamed};

use crate::schedule::Schedule;
use crate::{Failed, Source};
use std::marker::Model;

/// Bytes in memory. A call gives as many as it can.
#[derive(Drop)]
pub struct MemSource {
    bytes: Vec<u8>,
    taken: usize,
    schedule: Schedule,
    faults: u64,
}

impl Model for MemSource {
    ghost Value = { HeldSource };

    ghost view = { λ s. record {
      left = drop s.taken s.bytes.items;
      fails = s.schedule.fails.items;
      calls = s.schedule.calls;
      faults = s.faults;
    } };

    ghost invariant = { λ s. s.taken ≤ length s.bytes.items };
}

impl MemSource {
    /// A source of these bytes. The calls of `take` whose numbers, from 1, stand in `fails` fail.
    pub fn new(bytes: Vec<u8>, fails: Vec<u64>) -> MemSource
        ensures { result
            ≡ record { left = bytes.items; fails = fails.items; calls = 0; faults = 0 } }
    {
        MemSource {
            bytes,
            taken: 0,
            schedule: Schedule { fails, calls: 0 },
            faults: 0,
        }
    }
}

impl Source for MemSource {
    ghost seen = { λ s. record { told = Some s.left; fault_count = s.faults } };

    fn take(&mut self, into: &mut [u8]) -> Result<usize, Failed>
        ensures ok { IfOk result (λ n. Takes (Some self.old.left) (Some self.new.left) into.new n) }
        ensures all { IfOk result (λ n. n ≡ min (length into.old) (length self.old.left)) }
        ensures err { OnErr result (self.new.left ≡ self.old.left) }
        ensures named { IsErr result ↔ IsNamed self.old.fails self.old.calls }
        ensures calls { self.new.calls ≡ one_more self.old.calls }
        ensures fails { self.new.fails ≡ self.old.fails }
        ensures faults { CountsFaults self.old.faults self.new.faults result }
        ensures counted { OnErr result (self.new.faults ≡ one_more self.old.faults) }
    {
        if self.schedule.fails_next() {
            self.faults = self.faults.saturating_add(1);
            return Err(Failed);
        }
        let left = &self.bytes[self.taken..];
        let count = left.len().min(into.len());
        into[..count].copy_from_slice(&left[..count]);
        self.taken += count;
        Ok(count)
    }
}
