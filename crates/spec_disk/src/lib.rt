//! The disk model: events of a device, and what a stop may leave of its blocks.
#![tactic(auto)]

mod event;
mod image;
mod laws;
mod now;
mod one_event_more;

pub use event::Event;
pub use image::is_image;
pub use laws::{
    a_block_of_an_image_is_whole, a_failure_leaves_known_images, a_settled_disk_goes_on_as_it_is,
    a_settled_disk_has_one_image, a_sync_leaves_now, a_write_changes_sectors_of_its_block,
    a_write_of_one_sector_is_done_or_not, a_write_of_what_is_synced_changes_nothing,
    an_image_stays_until_a_sync, an_unwritten_block_is_as_synced, no_event_leaves_the_base,
    reads_are_wrong_after_a_failed_write, synced_and_now_are_images, synced_part_is_the_longest,
};
pub use now::{Block, last_of, now_of, synced_len, synced_of};
pub use one_event_more::{
    candidates_with_one_event_more, last_with_one_event_more, now_with_one_event_more,
    pending_with_one_event_more, reads_with_one_event_more, synced_with_one_event_more,
};
