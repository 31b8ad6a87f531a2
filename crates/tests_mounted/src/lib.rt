//! Tests of volumes that are mounted on devices in memory, by what a caller sees.
#![tactic(auto)]

#[cfg(test)]
mod mounting;
