//! What two blobs of one name show: a collision of SHA-256 at one place in both trees.
#![tactic(auto)]

pub mod laws;
