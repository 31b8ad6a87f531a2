//! A budget that isn't claimed yet.

ghost use Rattle.std.specs.Prelude.{◌≡◌, ℕ, ◌<◌, ◌≤◌, [], false};

use crate::rule::View;
use crate::tally::Tally;
use atomic_table::Seat;

/// The right to claim a number of blocks, with the memory to list them. It has to be spent, by
/// [`Claims::claim`](crate::Claims::claim).
pub struct Grant {
    pub(crate) seat: Seat<(), View>,
    pub(crate) tally: Tally,
    pub(crate) start: u64,
    ghost none_yet: { (tally.gained.items ≡ []) × (seat.me.0.owned ≡ []) },
    ghost left: { tally.left ≡ seat.me.0.budget },
    ghost begins: { 1 ≤ start },
    ghost plain: { (seat.me.0.boss ≡ false) × (seat.me.1 ≡ []) },
}
