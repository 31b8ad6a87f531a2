//! A mounted volume as it stands behind the lock: the volume, and the pages of closed blobs.
#![tactic(auto)]

mod adds;
mod answers;
mod events;
mod keeping;
mod pages;
mod serving;
mod shared;

pub use shared::Shared;
