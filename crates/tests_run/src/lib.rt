//! Tests of the commands that run sessions, by what they print.
#![tactic(auto)]

#[cfg(test)]
mod changed;
#[cfg(test)]
mod live;
#[cfg(test)]
mod rows;
#[cfg(test)]
mod runs;
#[cfg(test)]
mod texts;
#[cfg(test)]
mod torn;
#[cfg(test)]
mod volumes;
#[cfg(test)]
mod written_over;
