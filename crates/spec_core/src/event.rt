//! An event of a history.

use crate::act::Act;
use crate::reply::Reply;
use crate::who::Who;

/// One step of the core.
#[derive(Clone, Copy, Debug, PartialEq, Eq)]
pub struct CoreEvent {
    pub who: Who,
    pub act: Act,
    pub reply: Reply,
    /// The device's writes and syncs of this mount when the event ended, recovery's among them.
    pub calls: u64,
}
