//! A slot of a session.

/// A slot, which may hold the root of an open blob: places are ordered by session, then by slot.
#[derive(Clone, Copy, Debug, PartialEq, Eq, PartialOrd, Ord)]
pub struct Place {
    pub session: u32,
    pub slot: u32,
}
