//! Makes an empty volume on a device.
#![tactic(auto)]

mod fault;
mod formatting;
mod phases;

pub use fault::FormatFault;
pub use formatting::format;
