//! The rule of the table: what a token knows, and what each kind of step does to it.

use atomic_table::{Join, Play, Split, TableRule};
use std::collections::LinkedList;
use std::marker::{Brand, PhantomData};

/// What a token knows. No value of it is ever made.
pub struct View {
    /// Whether this is the one token that frees.
    pub boss: bool,
    /// The number of the table's blocks, in the boss's view.
    pub blocks: u64,
    /// The blocks that are the token's.
    pub owned: LinkedList<u64>,
    /// Blocks that a step of the token found taken.
    pub saw: LinkedList<u64>,
    /// How many blocks the token may still claim.
    pub budget: u64,
    /// How many blocks the boss may still give out.
    pub room: u64,
}

/// The rule of reservations over a table whose key is its number of blocks.
pub struct Rule;

impl TableRule<(), View, u64> for Rule {
    ghost use Rattle.bv_claims.specs.Rule.{IsReserved};
    ghost use Rattle.bv_claims.specs.Views.{first_view};

    ghost holds = { IsReserved };

    ghost first = { first_view };
}

/// Sets the mark of a block that may be another's.
pub struct Claim;

impl Play<(), View> for Claim {
    ghost use Rattle.bv_claims.specs.Steps.{ClaimTells};

    ghost then = { ClaimTells };
}

/// Looks whether a word is full.
pub struct Look;

impl Play<(), View> for Look {
    ghost use Rattle.bv_claims.specs.Steps.{LookTells};

    ghost then = { LookTells };
}

/// Sets the mark of a block that is nobody's.
pub struct Hold;

impl Play<(), View> for Hold {
    ghost use Rattle.bv_claims.specs.Steps.{HoldTells};

    ghost then = { HoldTells };
}

/// Clears the mark of a block of the boss's.
pub struct Free;

impl Play<(), View> for Free {
    ghost use Rattle.bv_claims.specs.Steps.{FreeTells};

    ghost then = { FreeTells };
}

/// Looks at a word to learn what the rule says of the boss.
pub struct Review;

impl Play<(), View> for Review {
    ghost use Rattle.bv_claims.specs.Steps.{ReviewTells};

    ghost then = { ReviewTells };
}

/// How many blocks a grant is for. A step sees no number of its caller's, so this one is a ghost
/// member of a type that the caller picks.
pub trait Amount {
    ghost use Rattle.std.specs.Prelude.{ℕ};

    ghost need: { ℕ };
}

impl Amount for Brand {
    ghost need = { 0 };
}

/// Cuts a budget off the boss's room.
pub struct Grants<N> {
    marker: PhantomData<N>,
}

impl<N: Amount> Split<View> for Grants<N> {
    ghost use Rattle.bv_claims.specs.Views.{after_grant, grant_view};

    ghost left = { after_grant N.need };

    ghost right = { λ v. grant_view N.need };
}

/// Adds what another token has to the boss.
pub struct Takes;

impl Join<View> for Takes {
    ghost use Rattle.bv_claims.specs.Views.{after_join, spent_view};

    ghost both = { after_join };

    ghost spent = { spent_view };
}
