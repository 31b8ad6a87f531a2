//! What an unmount leaves on the device.
#![tactic(auto)]

pub mod laws;
