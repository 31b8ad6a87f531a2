//! A sink that keeps its bytes in memory, whose calls fail where it was told so.
ghost use Rattle.std.specs.Prelude.{◌≡◌, ◌⊎◌, ◌≤◌, [], ◌++◌, length, Some, IfOk, OnOk, OnErr, IsErr};
ghost use Rattle.bv_io.specs.Faults.{one_more, CountsFaults};
ghost use Rattle.bv_io.specs.Memory.{HeldSink, IsNamed};

use crate::schedule::Schedule;
use crate::{Failed, Sink};
use std::alloc::Global;
use std::marker::Model;

/// Bytes that were given, in memory. A call takes the whole piece. Where it finds no memory it
/// fails, and counts that apart too.
#[derive(Drop)]
pub struct MemSink {
    bytes: Vec<u8>,
    schedule: Schedule,
    faults: u64,
    short: u64,
}

impl Model for MemSink {
    ghost Value = { HeldSink };

    ghost view = { λ s. record {
      given = s.bytes.items;
      fails = s.schedule.fails.items;
      calls = s.schedule.calls;
      faults = s.faults;
      short = s.short;
    } };
}

impl MemSink {
    /// An empty sink. The calls of `give` whose numbers, from 1, stand in `fails` fail.
    pub fn new(fails: Vec<u64>, alloc: Global) -> MemSink
        ensures { result
            ≡ record { given = []; fails = fails.items; calls = 0; faults = 0; short = 0 } }
    {
        MemSink {
            bytes: Vec::new(alloc),
            schedule: Schedule { fails, calls: 0 },
            faults: 0,
            short: 0,
        }
    }

    /// What was given.
    pub fn bytes(&self) -> &[u8]
        ensures { result.now ≡ self.now.given }
    {
        &self.bytes
    }

    /// How often a call found no memory.
    pub fn short(&self) -> u64
        ensures { result ≡ self.now.short }
    {
        self.short
    }
}

impl Sink for MemSink {
    ghost seen = { λ s. record { told = Some s.given; fault_count = s.faults } };

    fn give(&mut self, from: &[u8]) -> Result<usize, Failed>
        ensures ok { IfOk result
            (λ n. (n ≡ length from.now) × (self.new.given ≡ self.old.given ++ from.now)) }
        ensures err { OnErr result (self.new.given ≡ self.old.given) }
        ensures named { IsNamed self.old.fails self.old.calls
            → IsErr result × (self.new.short ≡ self.old.short) }
        ensures cause { OnErr result (IsNamed self.old.fails self.old.calls
            ⊎ (self.new.short ≡ one_more self.old.short)) }
        ensures short { OnOk result (self.new.short ≡ self.old.short) }
        ensures calls { self.new.calls ≡ one_more self.old.calls }
        ensures fails { self.new.fails ≡ self.old.fails }
        ensures faults { CountsFaults self.old.faults self.new.faults result }
        ensures counted { OnErr result (self.new.faults ≡ one_more self.old.faults) }
    {
        if self.schedule.fails_next() {
            self.faults = self.faults.saturating_add(1);
            return Err(Failed);
        }
        if self.bytes.extend_from_slice(from).is_err() {
            self.short = self.short.saturating_add(1);
            self.faults = self.faults.saturating_add(1);
            return Err(Failed);
        }
        Ok(from.len())
    }
}
