//! What a run prints of its history fixes the history.
#![tactic(auto)]

pub mod laws;
