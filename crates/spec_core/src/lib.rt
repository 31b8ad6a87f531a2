//! The state machine of a volume: what is asked of it and replied, its state, its steps, and the
//! history that a mount leaves.
//!
//! The definitions stand in `specs/`; `laws` shows what they mean.
#![tactic(auto)]

pub mod act;
pub mod choice;
pub mod deed;
pub mod event;
pub mod laws;
pub mod map_change;
pub mod place;
pub mod reply;
pub mod setting;
pub mod who;

pub use act::Act;
pub use choice::Choice;
pub use deed::Deed;
pub use event::CoreEvent;
pub use map_change::MapChange;
pub use place::Place;
pub use reply::Reply;
pub use setting::Setting;
pub use who::Who;
