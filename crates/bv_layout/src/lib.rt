//! The superblock, and the counts that a volume is made with.
#![tactic(auto)]

mod counts;
mod superblock;
mod table;

pub use counts::{WrongCount, check_counts};
pub use spec_record::{FieldName, Geometry, Super, SuperFault};
pub use superblock::{read_super, write_super};
