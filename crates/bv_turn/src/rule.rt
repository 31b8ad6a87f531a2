//! The rule of shares as the table's rule, and the kinds of its steps.

use crate::keeps::Keeps;
use crate::view::View;
use atomic_table::{Join, Play, Split, TableRule};
use std::marker::PhantomData;
use std::snapshot::Snapshot;

/// What the rule is about: the number of sessions, and the value as it was handed in.
#[derive(Drop)]
pub struct About<T> {
    pub seats: u32,
    pub first: Snapshot<T>,
}

/// The rule of shares.
pub struct Law<T> {
    marker: PhantomData<T>,
}

impl<T: Keeps> TableRule<Option<T>, View<T::Entry, T::Basis>, About<T>> for Law<T> {
    ghost use Rattle.bv_turn.specs.Rule.{OfShares};
    ghost use Rattle.bv_turn.specs.Views.{opening};

    ghost holds = { λ k. OfShares T.session k.seats (T.basis k.first.value) T.entries T.basis };

    ghost first = { λ k. opening k.seats (T.basis k.first.value) };
}

/// A ticket is drawn, if it is the one that the share expects.
pub struct Draw<T> {
    marker: PhantomData<T>,
}

impl<T: Keeps> Play<Option<T>, View<T::Entry, T::Basis>> for Draw<T> {
    ghost use Rattle.bv_turn.specs.Kinds.{DrawsExpected};

    ghost then = { DrawsExpected };
}

/// A look at the ticket that is served. Where it is the seat's own, the seat takes the value.
pub struct Look<T> {
    marker: PhantomData<T>,
}

impl<T: Keeps> Play<Option<T>, View<T::Entry, T::Basis>> for Look<T> {
    ghost use Rattle.bv_turn.specs.Kinds.{Looks};

    ghost then = { Looks T.session T.entries T.basis };
}

/// The number of entries is stored, and the seat's part gains the new one.
pub struct Note<T> {
    marker: PhantomData<T>,
}

impl<T: Keeps> Play<Option<T>, View<T::Entry, T::Basis>> for Note<T> {
    ghost use Rattle.bv_turn.specs.Kinds.{Notes};

    ghost then = { Notes T.entries };
}

/// The next ticket is served, and the value is given back.
pub struct Pass<T> {
    marker: PhantomData<T>,
}

impl<T: Keeps> Play<Option<T>, View<T::Entry, T::Basis>> for Pass<T> {
    ghost use Rattle.bv_turn.specs.Kinds.{Passes};

    ghost then = { Passes };
}

/// The first session of a view goes to a new seat.
pub struct Peel;

impl<E, B> Split<View<E, B>> for Peel {
    ghost use Rattle.bv_turn.specs.Views.{peeled, peel};

    ghost left = { peeled };

    ghost right = { peel };
}

/// All sessions of the second view go to the first.
pub struct Merge;

impl<E, B> Join<View<E, B>> for Merge {
    ghost use Rattle.bv_turn.specs.Views.{merged, gone};

    ghost both = { merged };

    ghost spent = { gone };
}
