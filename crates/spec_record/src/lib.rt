//! What the bytes of each record on disk stand for.
#![tactic(auto)]

mod container;
mod entry_fault;
mod extent;
mod field_name;
mod geometry;
mod info;
mod info_fault;
mod inode;
mod laws;
mod node;
mod node_fault;
mod super_fault;
mod superblock;

pub use container::Container;
pub use entry_fault::EntryFault;
pub use extent::Extent;
pub use field_name::FieldName;
pub use geometry::Geometry;
pub use info::Info;
pub use info_fault::InfoFault;
pub use inode::Inode;
pub use laws::{
    crc32_has_the_check_value, entries_are_read_from_their_spelling_alone,
    extents_are_read_from_their_spelling_alone, faults_name_the_first_byte_that_is_set,
    infos_are_read_from_their_spelling_alone, magics_are_stored_as_their_bytes,
    nodes_are_read_from_their_spelling_alone, payloads_are_hidden_and_come_back,
    regions_follow_one_another, slots_follow_one_another,
    superblocks_are_read_from_their_spelling_alone,
};
pub use node::Node;
pub use node_fault::NodeFault;
pub use super_fault::SuperFault;
pub use superblock::Super;
