//! The program: standard input and output, files, and the words of the command line, for the top
//! call.
#![tactic(auto)]

mod access;
mod device_word;
mod disk_files;
mod file_device;
mod host_files;
mod program;
mod reader_source;
mod request;
#[cfg(test)]
mod tests;
mod texts;
mod writer_sink;

use crate::host_files::HostFiles;
use crate::program::answer;
use crate::reader_source::ReaderSource;
use crate::writer_sink::WriterSink;
use bv_io::Sink;
use bv_run::{Refusal, Status, refuse};
use std::io::{Error, ErrorKind};
use std::process::ExitCode;
use std::sync::Wait;
use std::thread::Threads;
use std::{env, io};

fn main(rt: HostRuntime) -> ExitCode {
    let mut out = WriterSink::new(rt.stdout());
    let status = run_program(&rt, &rt, &mut out);
    tell(&rt, "output", out.cause());
    ExitCode::from(status.code())
}

// Runs the program with what it writes handed in. `threads` is the runtime again, which
// starts the sessions' threads.
fn run_program<R: Threads + Wait + Sync, K: Sink>(
    rt: &HostRuntime,
    threads: &R,
    out: &mut K,
) -> Status {
    match words(rt) {
        Ok(words) => {
            let mut files = HostFiles::new(rt);
            let mut input = ReaderSource::new(rt.stdin());
            let status = answer(threads, rt.alloc(), &words, &mut files, &mut input, out);
            tell(rt, "device", device_cause(status, &files));
            tell(rt, "input", input.cause());
            status
        }
        Err(error) if error.kind() == ErrorKind::OutOfMemory => refuse(out, Refusal::NoMemory),
        // A word that isn't UTF-8 is part of no command.
        Err(_) => refuse(out, Refusal::Usage),
    }
}

// Why the device failed. No system gives a cause for one in memory, which fails for want of memory
// alone.
fn device_cause(status: Status, files: &HostFiles<'_>) -> Option<Error> {
    match files.cause() {
        None if status == Status::Device => Some(Error::from(ErrorKind::OutOfMemory)),
        cause => cause,
    }
}

// Says on standard error why a call failed, where one did.
fn tell(rt: &HostRuntime, what: &str, cause: Option<Error>) {
    if let Some(error) = cause {
        // Where this can't be told either, nothing is left to tell it to.
        let _ = eprintln!(rt; "blobfs: {what}: {error}");
    }
}

// The words after the program's name.
fn words(rt: &HostRuntime) -> io::Result<Vec<String>> {
    Ok(env::args(rt)?.skip(1).collect(rt.alloc())?)
}
