//! What a command may do to the file of its device.
ghost use Rattle.std.specs.Prelude.{◌≡◌};
ghost use Rattle.bv_main.specs.Access.{access_of};

use bv_run::{Command, Work};

/// What a command may do to the file of its device.
#[derive(Clone, Copy, Debug, PartialEq, Eq)]
pub enum Access {
    /// It reads the file alone.
    Read,
    /// It may write the file.
    Write,
}

impl Access {
    /// What this command may do.
    pub fn of(work: Work) -> Access
        ensures { result ≡ access_of work }
    {
        match work {
            Work::Plain(Command::Root | Command::ListBlobs | Command::Check) => Access::Read,
            _ => Access::Write,
        }
    }
}
