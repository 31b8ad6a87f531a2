//! Tests of the product's crates, each by what callers see of it. They stand together, since a crate
//! that has tests is proved twice.
#![tactic(auto)]

#[cfg(test)]
mod claims;
#[cfg(test)]
mod device;
#[cfg(test)]
mod disk;
#[cfg(test)]
mod entries;
#[cfg(test)]
mod fields;
#[cfg(test)]
mod formatting;
#[cfg(test)]
mod lanes;
#[cfg(test)]
mod streams;
#[cfg(test)]
mod superblocks;
#[cfg(test)]
mod trees;
