//! What opens, makes and closes the files that device words name.
ghost use Rattle.std.specs.Prelude.{◌≡◌, ◌<◌, ◌^◌, ℕ, List, Result, IfOk};
ghost use Rattle.spec_faults.specs.Faults.{CountsFaults};
ghost use Rattle.bv_device.specs.declared.failed.Failed.{Failed};
ghost use Rattle.bv_main.specs.declared.access.Access.{Access};

use crate::access::Access;
use bv_device::{Device, Failed};

/// Opens, makes and closes files of blocks.
pub trait DiskFiles {
    /// An open file. It can't be let go: it has to be closed.
    type Disk: Device + Send;

    /// What came of opening this path for such access, and what is left of `self`.
    ghost open_gives: { Self → Access → List ℕ → Result Self.Disk Failed → Self → Type 0 };

    /// What came of making a file of so many blocks at this path.
    ghost make_gives: { Self → ℕ → List ℕ → Result Self.Disk Failed → Self → Type 0 };

    /// What came of closing this file, which holds what it was left with.
    ghost close_gives: { Self → Self.Disk → Self → Type 0 };

    /// How many calls have failed. It never falls.
    ghost fault_count: { Self → ℕ };

    /// Opens a file that is there, to read it or to write it too.
    fn open(&mut self, access: Access, path: &str) -> Result<Self::Disk, Failed>
        ensures gives { open_gives self.old access path.now result self.new }
        ensures faults { CountsFaults (fault_count self.old) (fault_count self.new) result };

    /// Makes a file of so many zero blocks where there is none.
    fn make(&mut self, blocks: u64, path: &str) -> Result<Self::Disk, Failed>
        requires { blocks < 2 ^ 51 }
        ensures gives { make_gives self.old blocks path.now result self.new }
        ensures blocks { IfOk result (λ dev. (Self.Disk.seen dev).block_count ≡ blocks) }
        ensures faults { CountsFaults (fault_count self.old) (fault_count self.new) result };

    /// Closes a file. What lasts of it, its syncs have said.
    fn close(&mut self, dev: Self::Disk)
        ensures gives { close_gives self.old dev self.new }
        ensures faults { fault_count self.new ≡ fault_count self.old };
}
