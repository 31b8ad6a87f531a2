//! The bytes that a script's data words stand for, and the roots of its names.
#![tactic(auto)]

mod word;

pub use word::{bytes_of, root_of_name};
