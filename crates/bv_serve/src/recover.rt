//! The command `recover`: what the journal of a volume holds goes in place.
ghost use Rattle.bv_serve.specs.Recover.{RunsRecover};
ghost use Rattle.bv_serve.specs.Runs.{Change, LeavesAlone, change};

use crate::Status;
use crate::lines::print_replayed;
use bv_device::Device;
use bv_io::Sink;
use bv_mount::recover_volume;
use std::alloc::Global;

/// Recovers the volume on the device, and prints how many entries were replayed.
pub(crate) fn recover<D: Device, K: Sink>(alloc: Global, dev: &mut D, out: &mut K) -> Status
    ensures { (input : Change) → LeavesAlone input → RunsRecover result
        (D.seen dev.old) (D.seen dev.new)
        input (change (K.seen out.old) (K.seen out.new)) }
{
    let answer = recover_volume(alloc, dev);
    print_replayed(out, "recovered", answer)
}
