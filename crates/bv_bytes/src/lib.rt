//! Fields of bytes, and CRC-32.
#![tactic(auto)]

mod crc;
mod ensure;
mod field;
mod fields;
mod zeros;

pub use crc::{crc_more, crc32};
pub use field::Field;
pub use zeros::find_set;

/// A block of a device: 8,192 bytes.
pub type Block = [u8; 8192];
