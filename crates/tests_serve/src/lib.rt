//! Tests of the top call, by its words, its device, and what it prints.
#![tactic(auto)]

#[cfg(test)]
mod recoveries;
#[cfg(test)]
mod samples;
#[cfg(test)]
mod volumes;
