//! The top call: a command's words, a device, a source and a sink in; a status, the device and the
//! printed lines out.
#![tactic(auto)]

mod check;
mod command;
mod fault_text;
mod format;
mod line;
mod lines;
mod list;
mod number;
mod recover;
mod refusal;
mod root;
mod serve;
mod status;
#[cfg(test)]
mod tests;
mod upgrade;

pub use command::Command;
pub use format::refusal_of;
pub use line::Line;
pub use lines::{print, refuse};
pub use number::read_number;
pub use refusal::Refusal;
pub use serve::{run, run_plain};
pub use status::Status;
