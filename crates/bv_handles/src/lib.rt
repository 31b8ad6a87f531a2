//! The slots of a mounted volume that hold open blobs, and how many of them hold each blob.
#![tactic(auto)]

mod handles;
mod holders;

pub use handles::Handles;
