//! Which calls of a device in memory are to fail.

ghost use Rattle.std.specs.Prelude.{◌≡◌, ◌↔◌, [], ◌∷◌, ◌++◌, IsTrue, OnOk, OnErr};
ghost use Rattle.bv_device.specs.Memory.{IsNamed, one_call_later};

use std::alloc::{AllocError, Global};

/// The calls of one kind that are to fail, each by its number from now on: 1 is the next call, and
/// 0 one that is past.
#[derive(Drop)]
pub struct Schedule {
    pub fails: Vec<u64>,
}

impl Schedule {
    /// No call is to fail.
    pub fn new(alloc: Global) -> Schedule
        ensures { result.fails.items ≡ [] }
    {
        Schedule {
            fails: Vec::new(alloc),
        }
    }

    /// One more call is to fail, the `nth` from now on.
    pub fn add(&mut self, nth: u64) -> Result<(), AllocError>
        ensures ok { OnOk result (self.new.fails.items ≡ self.old.fails.items ++ nth ∷ []) }
        ensures err { OnErr result (self.new.fails.items ≡ self.old.fails.items) }
    {
        self.fails.push(nth)?;
        Ok(())
    }

    /// Passes on to the next call, and says whether it is to fail.
    pub fn fails_next(&mut self) -> bool
        ensures named { IsTrue result ↔ IsNamed self.old.fails.items }
        ensures later { self.new.fails.items ≡ one_call_later self.old.fails.items }
    {
        let named = self.fails.as_slice().contains(&1);
        for number in self.fails.iter_mut() {
            *number = number.saturating_sub(1);
        }
        named
    }
}
