//! Streams: where bytes come from and go to, with counts of faults, and both in memory.
#![tactic(auto)]

mod failed;
mod filling;
mod gate;
mod giving;
mod memory_sink;
mod memory_source;
mod reading;
mod schedule;
mod sink;
mod source;
mod trickle;

pub use failed::Failed;
pub use filling::fill;
pub use gate::{Gate, NoGate};
pub use giving::give_all;
pub use memory_sink::MemSink;
pub use memory_source::MemSource;
pub use reading::{ReadAllFault, read_all};
pub use sink::Sink;
pub use source::Source;
pub use trickle::Trickle;
