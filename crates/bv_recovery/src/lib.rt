//! What joins a scan of the journal to its recovery.
#![tactic(auto)]

mod laws;

pub use laws::a_scan_may_be_recovered;
