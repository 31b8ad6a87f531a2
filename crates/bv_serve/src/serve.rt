//! The top call.
ghost use Rattle.std.specs.Prelude.{◌≡◌, map, string_bytes};
ghost use Rattle.bv_serve.specs.Runs.{change};
ghost use Rattle.bv_serve.specs.Serves.{Serves, LeavesDevice};

use crate::check::check;
use crate::format::format;
use crate::lines::refuse;
use crate::list::list;
use crate::recover::recover;
use crate::root::root;
use crate::upgrade::upgrade;
use crate::{Command, Refusal, Status};
use bv_device::Device;
use bv_io::{Sink, Source};
use std::alloc::Global;

/// Does what the words ask for, on the device: reads `input`, writes the result or the line of a
/// refusal to `out`, and says how it ended. What is printed, what becomes of the device, and when
/// each status comes, is `Serves`.
pub fn run<D: Device, S: Source, K: Sink>(
    alloc: Global,
    words: &[String],
    dev: D,
    input: &mut S,
    out: &mut K,
) -> (Status, D)
    ensures serves { Serves (map string_bytes words.now) result.0
        (D.seen dev) (D.seen result.1)
        (change (S.seen input.old) (S.seen input.new))
        (change (K.seen out.old) (K.seen out.new)) }
    ensures untouched { LeavesDevice (map string_bytes words.now) result.0 → result.1 ≡ dev }
{
    run_plain(alloc, words, dev, input, out)
}

/// The commands that need no threads. Other words are its usage refusal. It waits for nobody.
pub fn run_plain<D: Device, S: Source, K: Sink>(
    alloc: Global,
    words: &[String],
    mut dev: D,
    input: &mut S,
    out: &mut K,
) -> (Status, D)
    ensures serves { Serves (map string_bytes words.now) result.0
        (D.seen dev) (D.seen result.1)
        (change (S.seen input.old) (S.seen input.new))
        (change (K.seen out.old) (K.seen out.new)) }
    ensures untouched { LeavesDevice (map string_bytes words.now) result.0 → result.1 ≡ dev }
{
    match Command::parse(words) {
        Some(Command::Root) => (root(input, out), dev),
        Some(Command::ListBlobs) => (list(alloc, &mut dev, out), dev),
        Some(Command::Check) => (check(alloc, &mut dev, out), dev),
        Some(Command::Recover) => (recover(alloc, &mut dev, out), dev),
        Some(Command::Upgrade) => (upgrade(alloc, &mut dev, out), dev),
        Some(Command::Format(geometry)) => (format(&mut dev, geometry, out), dev),
        None => (refuse(out, Refusal::Usage), dev),
    }
}
