//! A turn as sessions use it: a thread for each, over any value whose sessions add events.
#![tactic(auto)]

mod adds;
mod event;
mod journal;
mod run;
mod script;
mod session;
#[cfg(test)]
mod tests;

pub use adds::Adds;
pub use event::Event;
pub use journal::Journal;
pub use run::run_sessions;
pub use script::{Line, Script};
