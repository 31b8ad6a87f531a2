//! Tests of metadata: what a survey finds in blocks that are written out by hand, and how blobs lie in
//! nodes and extents.
#![tactic(auto)]

#[cfg(test)]
mod base;
#[cfg(test)]
mod bits;
#[cfg(test)]
mod bytes_of_nodes;
#[cfg(test)]
mod extents;
#[cfg(test)]
mod orders;
#[cfg(test)]
mod rings;
#[cfg(test)]
mod surveys;
