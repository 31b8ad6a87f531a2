//! The lock, its shares, and the value while it is out.
ghost use Rattle.std.specs.Prelude.{◌≡◌, ◌<◌, ◌∷◌, [], map};

use crate::keeps::Keeps;
use crate::rule::{About, Law};
use crate::view::View;
use atomic_table::{Seat, Table};
use std::alloc::Global;
use std::sync::atomic::AtomicU64;

/// How many bells a turn has: as many as sessions.
pub(crate) const BELLS: usize = 16;

/// A lock that serves its shares in the order of their tickets.
///
/// A share draws its ticket once no other is out, so whoever comes first has the value at once, and
/// it is never handed to a share that sleeps.
///
/// It has no `Drop`: its value comes out by `close` alone, which takes every share.
pub struct Turn<T: Keeps> {
    pub(crate) table: Table<Option<T>, View<T::Entry, T::Basis>, About<T>, Law<T>, Global>,
    /// On its session's bell a share sleeps while another has the value. A bell that isn't 0 has, or
    /// is about to have, a sleeper. No promise rests on them.
    pub(crate) bells: [AtomicU64; BELLS],
    ghost words: { table.shared.table_id.words ≡ 3 },
    ghost slots: { table.shared.table_id.slots ≡ 1 },
    ghost seats: { 0 < table.shared.key.seats },
}

/// A session's token for one turn: its number, and the list of its own entries.
///
/// It may be dropped. Its turn can't be closed from then on.
#[derive(Drop)]
pub struct Share<T: Keeps> {
    pub(crate) seat: Seat<Option<T>, View<T::Entry, T::Basis>>,
    pub(crate) session: u32,
    ghost one: { map (λ p. p.session) seat.me.0.parts ≡ session ∷ [] },
}

/// The value, from `hold` to `pass`. It has no `Drop`, so that it isn't let go unawares.
pub struct Held<T> {
    pub value: T,
}
