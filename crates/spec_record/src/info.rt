//! Where the journal begins.

/// What the journal's info block says.
///
/// Its table stands in `specs/Info.antt`.
#[derive(Clone, Copy, Debug, PartialEq, Eq)]
pub struct Info {
    /// The slot of the ring at which the first entry stands, from 0.
    pub start: u64,
    /// The number of the entry that stands there, or would.
    pub number: u64,
}
