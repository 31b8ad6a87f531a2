//! The event calls of a value, which know nothing of its turn.
ghost use Rattle.std.specs.Prelude.{◌≡◌, ◌++◌, ◌∷◌, [], OnOk, OnErr};
ghost use Rattle.bv_turn_uses.specs.declared.event.Event.{Event};
ghost use Rattle.bv_turn_uses.specs.Events.{event};

use crate::event::Event;
use bv_turn::Keeps;
use std::alloc::AllocError;

/// A value whose sessions add events, one in each call.
pub trait Adds: Keeps<Entry = Event> {
    fn add(&mut self, session: u32, amount: u64) -> Result<(), AllocError>
        ensures basis { Self.basis self.new ≡ Self.basis self.old }
        ensures ok { OnOk result
            (Self.entries self.new ≡ Self.entries self.old ++ event session amount ∷ []) }
        ensures err { OnErr result (Self.entries self.new ≡ Self.entries self.old) };

    ghost session_is: { (e : Event) → Self.session e ≡ e.session };
}
