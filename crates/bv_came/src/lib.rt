//! What joins the lines of a run's sessions to the disk that they read.
#![tactic(auto)]

mod laws;

pub use laws::results_say_what_the_disk_has;
