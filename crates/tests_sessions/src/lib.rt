//! Tests of sessions that run beside one another, by what the top call prints.
#![tactic(auto)]

#[cfg(test)]
mod order;
#[cfg(test)]
mod ordered;
#[cfg(test)]
mod racing;
#[cfg(test)]
mod runs;
