//! Sessions: what each does with its lines, over any value that makes a volume's events under the
//! lock.
#![tactic(auto)]

mod adding;
mod entry;
mod line;
mod opening;
mod plain;
mod ranging;
mod reply;
mod serves;
mod session;
mod slots;
mod steps;
mod windows;

pub use entry::{Basis, Entry, Told};
pub use line::run_line;
pub use serves::{Answer, Outcome, Serves};
pub use session::{Ended, run_lines_of};
pub use slots::Slots;
pub use spec_session::{LineResult, SessionEnd};
