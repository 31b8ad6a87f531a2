//! Any device checked: everything that is wrong with its metadata, and each blob whose bytes don't
//! have its root.
#![tactic(auto)]

mod checking;
mod damage;
mod data_hasher;
mod last_block;
mod report;
mod rising;
mod waiting;

pub use bv_mount::OpenFault as CheckFault;
pub use checking::check;
pub use report::Report;
