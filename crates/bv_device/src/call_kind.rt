//! The kinds of calls that can fail.

/// A kind of call of a device.
#[derive(Clone, Copy, Debug, PartialEq, Eq)]
pub enum CallKind {
    Read,
    Write,
    Sync,
}
