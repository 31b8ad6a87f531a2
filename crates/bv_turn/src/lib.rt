//! A lock that hands its value out in the order of tickets. Each share knows its own part of the
//! value's history.
#![tactic(auto)]

mod bells;
mod keeps;
mod rule;
mod steps;
mod turn;
mod view;

pub use keeps::Keeps;
pub use turn::{Held, Share, Turn};
