//! What a volume replies.

/// The reply of an event. A `fault` is the device's count of faults right after the call that
/// failed; `need` and `room` are blocks, or with `free` nodes.
#[derive(Clone, Copy, Debug, PartialEq, Eq)]
pub enum Reply {
    Granted,
    Admitted,
    Written,
    Published,
    Retired,
    Opened { size: u64 },
    Fetched,
    /// The slot holds a blob, and a read or scan of it begins.
    Reading,
    Closed,
    Unlinked,
    Synced,
    /// How many blobs are present.
    Listed { count: u64 },
    Unmounted,
    /// A write or sync failed earlier in this mount, with this fault.
    Stopped { fault: u64 },
    Exists,
    /// The blob was unlinked and isn't purged, and so many slots hold it.
    Leaving { handles: u64 },
    InFlight,
    NoSpace { need: u64, room: u64 },
    NoNodes { need: u64, free: u64 },
    /// An entry is to be written, and there is no further number for it.
    NumberEnd,
    DeviceFault { fault: u64 },
    ReadFault { fault: u64 },
    NotFound,
    SlotTaken,
    BadSlot,
}
