//! Tests of the plain programs of the definitions, on rows that were worked out by hand.
#![tactic(auto)]

#[cfg(test)]
mod chances;
#[cfg(test)]
mod core_endings;
#[cfg(test)]
mod core_steps;
#[cfg(test)]
mod histories;
#[cfg(test)]
mod images;
#[cfg(test)]
mod stops;
#[cfg(test)]
mod timing;
