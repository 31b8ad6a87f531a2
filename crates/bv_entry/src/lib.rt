//! Journal entries and the journal's info block.
#![tactic(auto)]

mod entry;
mod info;
mod payload;
mod place;
mod read;
mod row;
mod write;

pub use entry::Entry;
pub use info::{read_info, write_info};
pub use read::{ReadEntryFault, read_entry};
pub use spec_record::{EntryFault, Info, InfoFault};
pub use write::write_entry;
