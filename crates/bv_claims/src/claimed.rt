//! What a grant has come to.

ghost use Rattle.std.specs.Prelude.{◌≡◌, ℕ, [], false};

use crate::rule::View;
use crate::tally::Tally;
use atomic_table::Seat;

/// The blocks that a claim has gained, and what is left of its budget. It has to be spent, by
/// [`Boss::take`](crate::Boss::take).
pub struct Claimed {
    pub(crate) seat: Seat<(), View>,
    pub(crate) tally: Tally,
    ghost gained: { tally.gained.items ≡ seat.me.0.owned },
    ghost left: { tally.left ≡ seat.me.0.budget },
    ghost plain: { (seat.me.0.boss ≡ false) × (seat.me.1 ≡ []) },
}

impl Claimed {
    ghost use Rattle.std.specs.Prelude.{◌≡◌};
    ghost use Rattle.bv_claims.specs.Tokens.{claimed_gained, claimed_left};

    /// The blocks gained, in the order in which they were won.
    pub fn gained(&self) -> &[u64]
        ensures { result.now ≡ claimed_gained self.now }
    {
        self.tally.gained.as_slice()
    }

    /// How many blocks of the grant's need weren't gained.
    pub fn left(&self) -> u64
        ensures { result ≡ claimed_left self.now }
    {
        self.tally.left
    }
}
