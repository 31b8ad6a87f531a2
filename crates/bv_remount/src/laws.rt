//! The law: it is the contract of a function that does nothing.

ghost use Rattle.bv_remount.specs.Remounts.{WhatAStopLeavesMounts};

/// What a stop leaves of a device, in which no torn entry matches its checksum by chance, is inspected and
/// mounted where there is memory and no call fails, and the mounted volume opens with exactly the blobs
/// after a prefix of the log that holds every synced change, each blob whole.
pub fn what_a_stop_leaves_mounts()
    ensures { WhatAStopLeavesMounts }
{}
