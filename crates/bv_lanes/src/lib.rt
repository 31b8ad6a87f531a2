//! SHA-256 of up to eight messages side by side: each is a block after 12 bytes, and has a lane.
#![tactic(auto)]

mod compression;
mod functions;
mod hashing;
mod message;
mod pieces;
mod rounds;
mod rows;
mod schedule;
mod vectors;
mod words;

pub use hashing::digests;
pub use message::{Block, Message};
