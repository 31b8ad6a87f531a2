//! Tests of the journal on a device in memory: what a scan finds, and what a stop leaves of an append, a
//! checkpoint and a recovery.
#![tactic(auto)]

#[cfg(test)]
mod bad_input;
#[cfg(test)]
mod base;
#[cfg(test)]
mod faults;
#[cfg(test)]
mod rows;
#[cfg(test)]
mod scans;
#[cfg(test)]
mod stops;
