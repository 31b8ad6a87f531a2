//! Where the sessions of a run can be held up.

/// What a session calls as it goes on. It holds no lock in any of these calls.
pub trait Gate {
    /// Before each of the session's lines, with the line's number, and once after the last, with 0.
    fn pass(&self, session: u32, line: u32);

    /// Before an add is planned, before its blocks are claimed, and before each window is verified.
    fn work(&self, session: u32, line: u32);
}

/// The gate that lets everybody pass at once.
#[derive(Clone, Copy, Debug)]
pub struct NoGate;

impl Gate for NoGate {
    fn pass(&self, _session: u32, _line: u32) {}

    fn work(&self, _session: u32, _line: u32) {}
}
