//! What a run over a volume gives.

use bv_model::History;
use spec_session::SessionEnd;

/// The history of a run, how each session ended, and what kept the blobs.
pub struct Ran<S> {
    pub history: History,
    /// The end of each session, at the place of its number; none where no session began.
    pub ends: Vec<SessionEnd>,
    /// Whether all sessions did all their lines, and the volume was unmounted behind them: the
    /// unmount's reply is the history's last.
    pub whole: bool,
    pub store: S,
}
