//! What a stop of the machine may leave, as slow, plain programs.
//!
//! Each program's contract is the definition of `spec_crash` that it computes.
#![tactic(auto)]

mod chances;
mod device_events;
mod formatted;
mod history_events;
mod holding;
pub mod timing;
mod volumes;

pub use chances::is_no_chance;
pub use formatted::is_left_by_format;
pub use holding::holds_prefix;
pub use timing::is_timed;
