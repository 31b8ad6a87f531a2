//! The one answer of a call on a stream that failed.

/// A call of a source or a sink failed. The object's count of faults has risen.
#[derive(Clone, Copy, Debug, PartialEq, Eq)]
pub struct Failed;
