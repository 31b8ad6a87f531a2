//! What a run of sessions leaves in memory.

use bv_model::History;
use spec_session::SessionEnd;

/// The history of a run whose sessions did all their lines, and how each session ended, at the place of
/// its number.
#[derive(Drop)]
pub(crate) struct Finished {
    pub(crate) history: History,
    pub(crate) ends: Vec<SessionEnd>,
}
