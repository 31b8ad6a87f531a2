//! When the results of a run are those of one in which nothing fails.
#![tactic(auto)]

pub mod laws;
