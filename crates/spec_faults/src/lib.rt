//! Counts of failed calls, as streams and devices keep them.
#![tactic(auto)]

mod laws;

pub use laws::a_rise_is_seen_later;
