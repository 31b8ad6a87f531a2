//! Which calls of a stream in memory are to fail.
ghost use Rattle.std.specs.Prelude.{◌≡◌, ◌↔◌, IsTrue};
ghost use Rattle.bv_io.specs.Faults.{one_more};
ghost use Rattle.bv_io.specs.Memory.{IsNamed};

/// Counts the calls of an object, and fails those that it was told to.
///
/// `fails` are the numbers of the calls that fail, from 1. `calls` counts the calls made.
#[derive(Drop)]
pub struct Schedule {
    pub fails: Vec<u64>,
    pub calls: u64,
}

impl Schedule {
    /// Counts one call, and says whether it is to fail.
    pub fn fails_next(&mut self) -> bool
        ensures named { IsTrue result ↔ IsNamed self.old.fails.items self.old.calls }
        ensures calls { self.new.calls ≡ one_more self.old.calls }
        ensures fails { self.new.fails ≡ self.old.fails }
    {
        self.calls = self.calls.saturating_add(1);
        self.fails.as_slice().contains(&self.calls)
    }
}
