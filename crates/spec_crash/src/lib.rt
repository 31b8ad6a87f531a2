//! What a stop of the machine leaves of a volume: the theorem that a mounted volume has to keep,
//! and that of `format`.
#![tactic(auto)]

mod laws;

pub use laws::{
    a_fresh_mount_keeps_its_blobs, a_head_of_zeros_is_refused, a_synced_log_is_in_every_image,
    an_empty_log_keeps_the_opening_map, one_event_more_is_timed, one_event_more_keeps_the_theorem,
    what_is_synced_was_logged,
};
