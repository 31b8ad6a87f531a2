//! The commands `format` and `format2`: they make a volume without a blob.
ghost use Rattle.std.specs.Prelude.{◌≡◌, ◌≤◌, Ok};
ghost use Rattle.spec_faults.specs.Faults.{Rose};
ghost use Rattle.spec_record.specs.Geometry.{total_blocks};
ghost use Rattle.spec_record.specs.Tests.{IsBetween};
ghost use Rattle.bv_layout.specs.Counts.{counts_or_fault};
ghost use Rattle.bv_serve.specs.declared.status.Status.TheVariants as status;
ghost use Rattle.bv_serve.specs.Format.{refusal_of, RunsFormat};
ghost use Rattle.bv_serve.specs.Runs.{Change, LeavesAlone, change};

use crate::lines::{print, refuse};
use crate::{Refusal, Status};
use bv_device::Device;
use bv_format::FormatFault;
use bv_io::Sink;
use bv_mount::MountFault;
use spec_record::{Geometry, SuperFault};

/// What is printed where a volume was made.
const FORMATTED: &str = "formatted\n";

/// Makes a volume of these counts on the device, and says so.
pub(crate) fn format<D: Device, K: Sink>(dev: &mut D, geometry: Geometry, out: &mut K) -> Status
    requires { IsBetween 1 geometry.version 2 }
    ensures runs { (input : Change) → LeavesAlone input → RunsFormat geometry result
        (D.seen dev.old) (D.seen dev.new)
        input (change (K.seen out.old) (K.seen out.new)) }
    ensures complete { counts_or_fault geometry ≡ Ok tt
        → total_blocks geometry ≤ (D.seen dev.old).block_count
        → ¬ Rose (D.seen dev.old).fault_count (D.seen dev.new).fault_count
        → ¬ Rose (K.seen out.old).fault_count (K.seen out.new).fault_count → result ≡ status.Ok }
    ensures untouched { result ≡ status.Volume → dev.new ≡ dev.old }
{
    match bv_format::format(dev, geometry) {
        Ok(()) => print(out, FORMATTED.as_bytes()),
        Err(fault) => refuse(out, refusal_of(fault)),
    }
}

/// Why the run is refused where no volume was made.
pub fn refusal_of(fault: FormatFault) -> Refusal
    ensures { result ≡ refusal_of fault }
{
    match fault {
        FormatFault::Counts { field, value } => {
            Refusal::Volume(MountFault::Super(SuperFault::Counts { field, value }))
        }
        FormatFault::ShortDevice { wanted, has } => {
            Refusal::Volume(MountFault::Super(SuperFault::ShortDevice { wanted, has }))
        }
        FormatFault::DeviceFault { .. } => Refusal::DeviceFault,
    }
}
