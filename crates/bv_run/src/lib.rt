//! The commands that run sessions, and the top call of all commands.
#![tactic(auto)]

mod asking;
mod finished;
mod form;
mod reporting;
mod running;
mod script;
mod top;
mod work;

pub use bv_serve::{Command, Refusal, Status, print, refuse};
pub use form::Form;
pub use script::run_script;
pub use top::run;
pub use work::Work;
