//! What a whole image of a volume stands for: its journal, its metadata and its blobs.
//!
//! The definitions stand in `specs/`; `laws` shows what they mean.
#![tactic(auto)]

pub mod examples;
pub mod laws;
