//! Reservations of blocks, won and freed by many threads without a lock.
//!
//! A table has a mark for each block, 64 to a word. The [`Boss`] gives out budgets, each a
//! [`Grant`]; [`Claims::claim`] spends one on any thread, without a lock; and the [`Boss`] takes
//! over what came of it, a [`Claimed`]. No block is ever in two tokens.
#![tactic(auto)]

mod boss;
mod claimed;
mod claims;
mod grant;
mod laws;
mod rule;
mod search;
mod tally;

pub use boss::Boss;
pub use claimed::Claimed;
pub use claims::Claims;
pub use grant::Grant;
pub use laws::no_block_is_in_two_tokens;
