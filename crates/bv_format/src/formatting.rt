//! The call that makes a volume.
ghost use Rattle.std.specs.Prelude.{◌≡◌};
ghost use Rattle.spec_record.specs.Tests.{IsBetween};
ghost use Rattle.bv_format.specs.Answers.{AnswersCounts, AnswersShort, IsComplete, IsRefusal};
ghost use Rattle.bv_format.specs.Formats.{Formats};

use crate::FormatFault;
use crate::phases::make_volume;
use bv_device::{Device, Failed};
use bv_layout::{Geometry, WrongCount, check_counts};

/// Makes a volume without a blob from block 0 on. The device's further blocks stay as they are.
///
/// On a device that was settled, a stop of the machine in the midst of it leaves the old head, that
/// is the first sector of block 0, which can be only before the first sync, or no volume, or the
/// new one whole.
pub fn format<D: Device>(dev: &mut D, geometry: Geometry) -> Result<(), FormatFault>
    requires { IsBetween 1 geometry.version 2 }
    ensures counts { AnswersCounts geometry result }
    ensures short { AnswersShort geometry (D.seen dev.old).block_count result }
    ensures complete { IsComplete geometry (D.seen dev.old).block_count result
        (D.seen dev.old).fault_count (D.seen dev.new).fault_count }
    ensures untouched { IsRefusal result → dev.new ≡ dev.old }
    ensures formats { Formats geometry result (D.seen dev.old) (D.seen dev.new) }
{
    if let Err(WrongCount { field, value }) = check_counts(&geometry) {
        return Err(FormatFault::Counts { field, value });
    }
    let wanted = geometry.total();
    let has = dev.blocks();
    if has < wanted {
        return Err(FormatFault::ShortDevice { wanted, has });
    }
    match make_volume(dev, &geometry) {
        Ok(()) => Ok(()),
        Err(Failed) => {
            let fault = dev.faults();
            Err(FormatFault::DeviceFault { fault })
        }
    }
}
