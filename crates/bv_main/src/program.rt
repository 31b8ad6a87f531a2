//! What the program answers, its streams and what opens its files handed in.
ghost use Rattle.std.specs.Prelude.{◌≡◌, ◌⊎◌, map, string_bytes};
ghost use Rattle.bv_serve.specs.Runs.{change};
ghost use Rattle.bv_serve.specs.declared.refusal.Refusal.TheVariants as refusal;
ghost use Rattle.bv_main.specs.declared.request.Request.{Request};
ghost use Rattle.bv_main.specs.Devices.{HasFileRoom};
ghost use Rattle.bv_main.specs.Program.{Asks, AsksNothing, IsRefused, RunsOn, RunsOnFile, RunsOnWord, Does};

use crate::access::Access;
use crate::device_word::DeviceWord;
use crate::disk_files::DiskFiles;
use crate::request::Request;
use crate::texts::{HELP, VERSION};
use bv_device::{Device, Failed, MemDevice};
use bv_io::{NoGate, Sink, Source};
use bv_run::{Refusal, Status, print, refuse, run};
use std::alloc::Global;
use std::sync::Wait;
use std::thread::Threads;

/// Prints the help or the version where that is the only word, and else makes the top call on the
/// device that the words name. Words of no form are refused before a file is opened or made.
pub fn answer<R: Threads + Wait + Sync, F: DiskFiles, S: Source, K: Sink>(
    rt: &R,
    alloc: Global,
    words: &[String],
    files: &mut F,
    input: &mut S,
    out: &mut K,
) -> Status
    ensures { (AsksNothing (map string_bytes words.now) × (files.new ≡ files.old)
        × IsRefused refusal.Usage result
        (change (S.seen input.old) (S.seen input.new))
        (change (K.seen out.old) (K.seen out.new)))
        ⊎ ((request : Request) × Asks (map string_bytes words.now) request
        × Does F.Disk.seen F.fault_count F.open_gives F.make_gives F.close_gives
        HELP.now VERSION.now request files.old files.new result
        (change (S.seen input.old) (S.seen input.new))
        (change (K.seen out.old) (K.seen out.new))) }
{
    match Request::parse(words) {
        Some(Request::Help) => print(out, HELP.as_bytes()),
        Some(Request::Version) => print(out, VERSION.as_bytes()),
        Some(Request::Root) => {
            let no_blocks = MemDevice::from_blocks(alloc, Vec::new(alloc));
            run_on(rt, alloc, words, no_blocks, input, out)
        }
        Some(
            Request::On {
                device,
                access,
                command,
            },
        ) => run_on_word(rt, alloc, device, access, command, files, input, out),
        None => refuse(out, Refusal::Usage),
    }
}

/// Makes the top call on the device that a word names, opened for such access.
fn run_on_word<R: Threads + Wait + Sync, F: DiskFiles, S: Source, K: Sink>(
    rt: &R,
    alloc: Global,
    device: DeviceWord<'_>,
    access: Access,
    command: &[String],
    files: &mut F,
    input: &mut S,
    out: &mut K,
) -> Status
    requires { HasFileRoom device }
    ensures { RunsOnWord F.Disk.seen F.fault_count F.open_gives F.make_gives F.close_gives
        device.entry access files.old files.new (map string_bytes command.now) result
        (change (S.seen input.old) (S.seen input.new))
        (change (K.seen out.old) (K.seen out.new)) }
{
    match device {
        DeviceWord::Mem { blocks } => match MemDevice::new(alloc, blocks) {
            Ok(dev) => run_on(rt, alloc, command, dev, input, out),
            Err(_) => refuse(out, Refusal::NoMemory),
        },
        DeviceWord::New { blocks, path } => {
            let made = files.make(blocks, path);
            run_on_file(rt, alloc, command, made, files, input, out)
        }
        DeviceWord::File { path } => {
            let opened = files.open(access, path);
            run_on_file(rt, alloc, command, opened, files, input, out)
        }
    }
}

/// Makes the top call on a file, if there is one, and closes it.
fn run_on_file<R: Threads + Wait + Sync, F: DiskFiles, S: Source, K: Sink>(
    rt: &R,
    alloc: Global,
    command: &[String],
    made: Result<F::Disk, Failed>,
    files: &mut F,
    input: &mut S,
    out: &mut K,
) -> Status
    ensures { RunsOnFile F.Disk.seen F.fault_count F.open_gives F.make_gives F.close_gives
        made files.old files.new (map string_bytes command.now) result
        (change (S.seen input.old) (S.seen input.new))
        (change (K.seen out.old) (K.seen out.new)) }
{
    match made {
        Ok(dev) => {
            let (status, dev) = run(rt, alloc, command, dev, input, out, &NoGate);
            files.close(dev);
            status
        }
        Err(_) => refuse(out, Refusal::DeviceFault),
    }
}

/// Makes the top call on a device that nobody wants afterwards.
fn run_on<R: Threads + Wait + Sync, D: Device + Drop + Send, S: Source, K: Sink>(
    rt: &R,
    alloc: Global,
    command: &[String],
    dev: D,
    input: &mut S,
    out: &mut K,
) -> Status
    ensures { RunsOn (D.seen dev)
        (map string_bytes command.now) result
        (change (S.seen input.old) (S.seen input.new))
        (change (K.seen out.old) (K.seen out.new)) }
{
    let (status, _) = run(rt, alloc, command, dev, input, out, &NoGate);
    status
}
