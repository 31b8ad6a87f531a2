//! Tests of reading and printing scripts, and of the demonstration's script.
#![tactic(auto)]

#[cfg(test)]
mod base;
#[cfg(test)]
mod changes;
#[cfg(test)]
mod faults;
#[cfg(test)]
mod large;
#[cfg(test)]
mod limits;
#[cfg(test)]
mod rows;
