//! A value that is a list of events.
ghost use Rattle.std.specs.Prelude.{◌≡◌};

use crate::adds::Adds;
use crate::event::Event;
use bv_turn::Keeps;
use std::alloc::AllocError;

/// The events so far, over a base that stays.
#[derive(Drop)]
pub struct Journal {
    pub events: Vec<Event>,
    pub base: u64,
}

impl Keeps for Journal {
    type Entry = Event;

    type Basis = u64;

    ghost session = { λ e. e.session };

    ghost entries = { λ j. j.events.items };

    ghost basis = { λ j. j.base };

    fn count(&self) -> u64 {
        self.events.len() as u64
    }
}

impl Adds for Journal {
    fn add(&mut self, session: u32, amount: u64) -> Result<(), AllocError> {
        self.events.push(Event { session, amount })?;
        Ok(())
    }

    ghost use Rattle.std.specs.Prelude.{refl};

    ghost session_is = { λ e. refl };
}
