//! An entry of the history.

/// What one session added.
#[derive(Drop)]
pub struct Event {
    pub session: u32,
    pub amount: u64,
}
