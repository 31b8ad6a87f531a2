//! What a purge frees can be used again.
#![tactic(auto)]

pub mod laws;
