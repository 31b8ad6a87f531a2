//! Devices of blocks: the trait, one in memory that keeps its trace, and one that lies.
#![tactic(auto)]

mod call_kind;
mod device;
mod device_fault;
mod failed;
mod laws;
mod lie;
mod lying;
mod memory;
mod schedule;
mod stop;
mod traced;
mod writing;

pub use call_kind::CallKind;
pub use device::{Device, LAST_CALL};
pub use device_fault::{DeviceFault, with_fault};
pub use failed::Failed;
pub use laws::{
    a_run_leaves_what_its_plan_leaves, plans_are_joined, runs_that_only_read_are_joined,
    what_is_told_goes_on,
};
pub use lie::Lie;
pub use lying::LyingDevice;
pub use memory::MemDevice;
pub use spec_disk::{Block, Event};
pub use writing::{write_all, write_copies};
