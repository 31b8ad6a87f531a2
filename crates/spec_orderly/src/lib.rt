//! Sessions that take their adds on in order, and what this says of the core's adds.
#![tactic(auto)]

pub mod laws;
