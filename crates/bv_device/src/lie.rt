//! One lie of a device.

use crate::Block;

/// The read with the number `call`, counted from 1, gives these bytes.
#[derive(Clone, Copy, Debug, PartialEq, Eq)]
pub struct Lie {
    pub call: u64,
    pub bytes: Block,
}
