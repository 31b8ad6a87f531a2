//! Who makes an event.

ghost use Rattle.std.specs.Prelude.{◌≡◌};
ghost use Rattle.spec_core.specs.Choice.{place_of};

use crate::place::Place;

/// The session and the line of its script that make an event. Session 16, line 0 is the program.
#[derive(Clone, Copy, Debug, PartialEq, Eq)]
pub struct Who {
    pub session: u32,
    /// Counted from 1; the program has line 0.
    pub line: u32,
}

impl Who {
    /// The session's slot of this number.
    pub fn place(self, slot: u32) -> Place
        ensures { result ≡ place_of self slot }
    {
        Place {
            session: self.session,
            slot,
        }
    }
}
