//! The core of a volume as a plain program: slow, in memory, and each step by the tables.
#![tactic(auto)]

mod blobs;
mod caused;
mod changing;
pub mod choosing;
pub mod legality;
mod less;
mod logged;
mod lookups;
pub mod machine;
mod purging;
pub mod step;

pub use blobs::{blobs_after, make_change};
pub use caused::is_caused;
pub use choosing::is_chosen;
pub use legality::is_legal;
pub use logged::{Logged, logged_of};
pub use machine::{Machine, opening_of};
pub use step::step_of;
