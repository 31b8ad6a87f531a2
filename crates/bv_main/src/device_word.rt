//! The words that name a device.
ghost use Rattle.std.specs.Prelude.{◌++◌, codes, IfSome, IfNone};
ghost use Rattle.bv_main.specs.Devices.{Names, NamesNone, HasNoColon, IsCutAtColon};

use bv_serve::read_number;

/// The most blocks of a device in memory: 512 MiB.
const MOST_IN_MEMORY: u64 = 65_536;

/// The most blocks of a new file: 64 GiB.
const MOST_IN_FILE: u64 = 8_388_608;

/// A device, as a word names it.
#[derive(Clone, Copy, Debug)]
pub enum DeviceWord<'a> {
    /// So many zero blocks in memory.
    Mem { blocks: u64 },
    /// A new file of so many zero blocks.
    New { blocks: u64, path: &'a str },
    /// A file that is there.
    File { path: &'a str },
}

impl<'a> DeviceWord<'a> {
    /// The device that the word names, if it names one.
    pub fn parse(word: &'a str) -> Option<DeviceWord<'a>>
        ensures some { IfSome result (λ device. Names word.now device) }
        ensures none { IfNone result (NamesNone word.now) }
    {
        let (kind, rest) = cut_at_colon(word)?;
        match kind {
            "mem" => in_memory(rest),
            "new" => new_file(rest),
            "file" => Some(DeviceWord::File { path: rest }),
            _ => None,
        }
    }
}

/// What stands before the first colon of a text, and what stands after it.
fn cut_at_colon(text: &str) -> Option<(&str, &str)>
    ensures some { IfSome result (λ cut. IsCutAtColon text.now cut.0.now cut.1.now) }
    ensures none { IfNone result (HasNoColon text.now) }
{
    text.split_once(':')
}

/// The device in memory that `mem:` and this text name.
fn in_memory<'a>(rest: &'a str) -> Option<DeviceWord<'a>>
    ensures some { IfSome result (λ device. Names (codes "mem:" ++ rest.now) device) }
    ensures none { IfNone result (NamesNone (codes "mem:" ++ rest.now)) }
{
    let blocks = read_number(rest)?;
    if 1 <= blocks && blocks <= MOST_IN_MEMORY {
        Some(DeviceWord::Mem { blocks })
    } else {
        None
    }
}

/// The new file that `new:` and this text name.
fn new_file<'a>(rest: &'a str) -> Option<DeviceWord<'a>>
    ensures some { IfSome result (λ device. Names (codes "new:" ++ rest.now) device) }
    ensures none { IfNone result (NamesNone (codes "new:" ++ rest.now)) }
{
    let (number, path) = cut_at_colon(rest)?;
    let blocks = read_number(number)?;
    if 1 <= blocks && blocks <= MOST_IN_FILE {
        Some(DeviceWord::New { blocks, path })
    } else {
        None
    }
}
