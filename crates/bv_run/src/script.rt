//! The run of a command that runs sessions.
ghost use Rattle.std.specs.Prelude.{◌≡◌};
ghost use Rattle.bv_serve.specs.Runs.{change};
ghost use Rattle.bv_run.specs.Runs.{RunsScript};
ghost use Rattle.bv_run.specs.Words.{CanBeWritten};

use crate::Form;
use crate::asking::asked_script;
use crate::reporting::report;
use crate::running::run_on;
use bv_device::Device;
use bv_io::{Gate, Sink, Source};
use bv_serve::{Status, refuse};
use std::alloc::Global;
use std::sync::Wait;
use std::thread::Threads;

/// Runs the script's sessions on the device's volume. What is printed, what becomes of the device
/// wherever the machine stops, and when each status comes, is `RunsScript`.
pub fn run_script<R: Threads + Wait + Sync, D: Device + Send, S: Source, K: Sink, G: Gate + Sync>(
    rt: &R,
    alloc: Global,
    form: Form,
    dev: D,
    input: &mut S,
    out: &mut K,
    gate: &G,
) -> (Status, D)
    requires { CanBeWritten form }
    ensures { RunsScript form result.0
        (D.seen dev) (D.seen result.1)
        (change (S.seen input.old) (S.seen input.new))
        (change (K.seen out.old) (K.seen out.new)) }
{
    let script = match asked_script(alloc, form, input) {
        Ok(script) => script,
        Err(refusal) => return (refuse(out, refusal), dev),
    };
    // The lines of a script are lawful: this call says so.
    let _lines = script.lines();
    let (run, dev) = run_on(rt, alloc, form.made(), &script, dev, gate);
    match run {
        Ok(run) => (
            report(alloc, form, &script, &run.history, &run.ends, out),
            dev,
        ),
        Err(refusal) => (refuse(out, refusal), dev),
    }
}
