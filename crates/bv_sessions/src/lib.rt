//! The run of a script: its sessions, each in a thread, over a value behind the lock or over a mounted
//! volume.
#![tactic(auto)]

mod back;
mod each;
mod ending;
mod ran;
mod run;
mod sessions;

pub use ran::Ran;
pub use run::run_all;
pub use sessions::run_sessions;
