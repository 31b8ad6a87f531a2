//! Tests of windows and of the readers that share them.
#![tactic(auto)]

#[cfg(test)]
mod blobs;
#[cfg(test)]
mod changes;
#[cfg(test)]
mod readers;
#[cfg(test)]
mod rows;
