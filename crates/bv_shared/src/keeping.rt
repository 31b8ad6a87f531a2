//! The volume's events as the entries of a turn's value.
ghost use Rattle.bv_shared.specs.Entries.{basis_of, entries_in};

use crate::shared::Shared;
use bv_session::{Basis, Entry};
use bv_store::Store;
use bv_turn::Keeps;

impl<'t, S: Store> Keeps for Shared<'t, S> {
    type Entry = Entry;

    type Basis = Basis;

    ghost session = { λ e. e.event.who.session };

    ghost entries = { λ v. entries_in v.volume };

    ghost basis = { λ v. basis_of v.volume v.opening.value.store.faults };

    fn count(&self) -> u64 {
        self.volume.history().events().len() as u64
    }
}
