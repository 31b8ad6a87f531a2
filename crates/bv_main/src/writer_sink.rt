//! A writer of the standard library as a sink.
ghost use Rattle.std.specs.Prelude.{◌≡◌};

use bv_io::{Failed, Sink};
use std::io::{Error, ErrorKind, Write};

/// A sink over any writer, which is given each piece as it comes. It knows of the bytes what the
/// writer tells: of standard output nothing.
#[derive(Drop)]
pub struct WriterSink<W> {
    writer: W,
    faults: u64,
    cause: Option<Error>,
}

impl<W: Write> WriterSink<W> {
    pub fn new(writer: W) -> WriterSink<W>
        ensures writer { result.writer ≡ writer }
        ensures faults { result.faults ≡ 0 }
    {
        WriterSink {
            writer,
            faults: 0,
            cause: None,
        }
    }

    /// Why the last call that failed did so, where the writer said.
    pub fn cause(&self) -> Option<Error> {
        self.cause
    }
}

impl<W: Write> Sink for WriterSink<W> {
    ghost seen = { λ s. record { told = W.contents s.writer; fault_count = s.faults } };

    fn give(&mut self, from: &[u8]) -> Result<usize, Failed> {
        if from.is_empty() {
            return Ok(0);
        }
        for _ in 0..u64::MAX {
            match self.writer.write(from) {
                // A writer that takes nothing has failed.
                Ok(0) => break,
                Ok(count) => return Ok(count),
                // A signal came first, and nothing was written.
                Err(error) if error.kind() == ErrorKind::Interrupted => {}
                Err(error) => {
                    self.cause = Some(error);
                    break;
                }
            }
        }
        self.faults = self.faults.saturating_add(1);
        Err(Failed)
    }
}
