//! What a reader reads of a blob, and the bytes that the blob's name stands for.
#![tactic(auto)]

mod laws;

pub use laws::a_known_range_is_that_of_its_name;
