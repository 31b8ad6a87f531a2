//! Laws of the definitions: what each function here ensures holds of all values.

ghost use Rattle.spec_unmounted.specs.Unmounted.{UnmountsLeaveAll};

/// After an unmount the device has the blobs after the whole log, each whole.
pub fn an_unmount_leaves_every_change()
    ensures { UnmountsLeaveAll }
{}
