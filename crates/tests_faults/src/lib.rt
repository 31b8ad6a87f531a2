//! Tests of whole runs where a call fails, a stream fails, the machine stops, a device lies, or a
//! script is cut.
#![tactic(auto)]

#[cfg(test)]
mod calls;
#[cfg(test)]
mod cuts;
#[cfg(test)]
mod histories;
#[cfg(test)]
mod lies;
#[cfg(test)]
mod runs;
#[cfg(test)]
mod stops;
#[cfg(test)]
mod streams;
