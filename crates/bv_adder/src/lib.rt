//! A whole add on a mounted volume, by one caller: begin, claim, admit, every put, and settle.
#![tactic(auto)]

mod adding;
mod answers;
mod putting;

pub use adding::add_whole;
