//! A volume mounted from a device that was inspected.
#![tactic(auto)]

mod holding;
mod laws;
mod mounting;
mod opening;
mod prepared;
mod taken;
mod taking;

pub use laws::{
    a_kept_volume_keeps_the_theorem_of_stops, a_mounted_history_opens_with_its_image,
    a_mounted_volume_survives_from_its_image, a_refused_mount_survives,
};
pub use mounting::mount;
pub use prepared::Prepared;
