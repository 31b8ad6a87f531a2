//! The top call of all commands.
ghost use Rattle.std.specs.Prelude.{◌≡◌, map, string_bytes};
ghost use Rattle.bv_serve.specs.Runs.{change};
ghost use Rattle.bv_run.specs.Top.{LeavesDevice, ServesAll};

use crate::{Form, run_script};
use bv_device::Device;
use bv_io::{Gate, Sink, Source};
use bv_serve::{Status, run_plain};
use std::alloc::Global;
use std::sync::Wait;
use std::thread::Threads;

/// Does what the words ask for, on the device: reads `input`, writes the result or the line of a
/// refusal to `out`, and says how it ended. What is printed, what becomes of the device, and when
/// each status comes, is `Serves` for the commands that need no sessions, and `RunsScript` for those
/// that run them.
pub fn run<R: Threads + Wait + Sync, D: Device + Send, S: Source, K: Sink, G: Gate + Sync>(
    rt: &R,
    alloc: Global,
    words: &[String],
    dev: D,
    input: &mut S,
    out: &mut K,
    gate: &G,
) -> (Status, D)
    ensures serves { ServesAll (map string_bytes words.now) result.0
        (D.seen dev) (D.seen result.1)
        (change (S.seen input.old) (S.seen input.new))
        (change (K.seen out.old) (K.seen out.new)) }
    ensures untouched { LeavesDevice (map string_bytes words.now) result.0 → result.1 ≡ dev }
{
    match Form::parse(words) {
        Some(form) => run_script(rt, alloc, form, dev, input, out, gate),
        None => run_plain(alloc, words, dev, input, out),
    }
}
