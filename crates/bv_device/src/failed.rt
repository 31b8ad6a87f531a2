//! The one answer of a call of a device that failed.

/// A call of a device failed. The device's count of faults has risen.
#[derive(Clone, Copy, Debug, PartialEq, Eq)]
pub struct Failed;
