//! What the sessions are to do.

/// One session's command: this amount is added.
#[derive(Drop)]
pub struct Line {
    pub session: u32,
    pub amount: u64,
}

/// The commands of all sessions.
#[derive(Drop)]
pub struct Script {
    pub lines: Vec<Line>,
}
