//! The history of a mount, and the calls that go over it: what was synced and what was logged by
//! when, and the room that is left.
//!
//! The types of events and the rules that they obey are `spec_core`'s.
#![tactic(auto)]

mod adding;
mod deed;
pub mod history;
pub mod laws;
mod nodes;
pub mod rescan;
pub mod room;

pub use history::History;
pub use nodes::worst_nodes;
pub use rescan::{logged_by, synced_by};
pub use room::room_of;
pub use spec_core::{Act, Choice, CoreEvent, MapChange, Place, Reply, Setting, Who};
pub use spec_tree::Blob;
