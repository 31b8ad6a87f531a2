//! The store of a volume on a device: data blocks, and a journal of entries that change the map of
//! the blobs.
#![tactic(auto)]

mod drawing;
mod entering;
mod fitting;
mod freeing;
mod hints;
mod keeping;
mod laws;
mod lookup;
mod opening;
mod places;
mod prepared;
mod preparing;
mod publishing;
mod purging;
mod reading;
mod store;

pub use fitting::{a_publication_fits_behind_purges, extents_of_rising_blocks_lie_apart};
pub use laws::{
    a_blob_that_lasts_is_kept, a_checkpoint_keeps_the_newest_map, a_put_keeps_both_maps,
    a_sync_keeps_the_newest_map, an_append_keeps_the_map_or_makes_its_own,
    blocks_that_have_a_blob_are_whole_and_sound, changes_that_fit_keep_their_map,
    what_is_kept_is_held,
};
pub use opening::{a_recovery_keeps_each_blob, purges_of_roots_are_those_of_the_log};
pub use store::JournaledStore;
