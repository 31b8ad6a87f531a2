//! The command `upgrade`: a volume becomes one of version 2.
ghost use Rattle.bv_serve.specs.Upgrade.{RunsUpgrade};
ghost use Rattle.bv_serve.specs.Runs.{Change, LeavesAlone, change};

use crate::Status;
use crate::lines::print_replayed;
use bv_device::Device;
use bv_io::Sink;
use std::alloc::Global;

/// Recovers the volume on the device, makes it one of version 2, and prints how many entries were
/// replayed.
pub(crate) fn upgrade<D: Device, K: Sink>(alloc: Global, dev: &mut D, out: &mut K) -> Status
    ensures { (input : Change) → LeavesAlone input → RunsUpgrade result
        (D.seen dev.old) (D.seen dev.new)
        input (change (K.seen out.old) (K.seen out.new)) }
{
    let answer = bv_mount::upgrade(alloc, dev);
    print_replayed(out, "upgraded", answer)
}
