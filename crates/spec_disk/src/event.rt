//! What a device did: a write or a sync, and whether it answered Ok.

/// One write or sync of a device, Ok or failed.
///
/// `at` counts blocks of 8,192 bytes from 0.
#[derive(Clone, Copy, Debug, PartialEq, Eq)]
pub enum Event {
    Write {
        at: u64,
        bytes: [u8; 8192],
        ok: bool,
    },
    Sync {
        ok: bool,
    },
}
