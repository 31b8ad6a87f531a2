//! What a stop of the machine leaves of a run can be mounted, and opens with the blobs of a prefix.
#![tactic(auto)]

pub mod laws;
