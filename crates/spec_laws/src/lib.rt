//! Laws of images, maps and stops that the layers of a volume need.
#![tactic(auto)]

mod laws;

pub use laws::{
    a_blob_is_known_by_its_record, a_mount_without_an_event_keeps_its_blobs,
    a_node_stands_in_one_chain, equal_metadata_blocks_are_equal_metadata,
    metadata_of_an_image_is_well_formed, sorted_maps_with_equal_lookups_are_equal,
    the_blobs_of_an_image_fit,
};
