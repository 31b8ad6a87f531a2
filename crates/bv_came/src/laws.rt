//! The law of what a run's results say of the disk.

ghost use Rattle.bv_came.specs.Sees.{SessionsSee};

/// While nothing has failed, the results of a run's lines say of the disk what they should: the bytes
/// of a read are those of its blob there, and a mismatch is the first failure of the first window
/// that doesn't verify there.
pub fn results_say_what_the_disk_has()
    ensures { SessionsSee }
{}
