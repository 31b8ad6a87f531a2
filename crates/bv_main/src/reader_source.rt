//! A reader of the standard library as a source.
ghost use Rattle.std.specs.Prelude.{◌≡◌};

use bv_io::{Failed, Source};
use std::io::{Error, ErrorKind, Read};

/// A source over any reader. It knows of the bytes what the reader tells: of standard input
/// nothing.
#[derive(Drop)]
pub struct ReaderSource<R> {
    reader: R,
    faults: u64,
    cause: Option<Error>,
}

impl<R: Read> ReaderSource<R> {
    pub fn new(reader: R) -> ReaderSource<R>
        ensures reader { result.reader ≡ reader }
        ensures faults { result.faults ≡ 0 }
    {
        ReaderSource {
            reader,
            faults: 0,
            cause: None,
        }
    }

    /// Why the last call that failed did so.
    pub fn cause(&self) -> Option<Error> {
        self.cause
    }
}

impl<R: Read> Source for ReaderSource<R> {
    ghost seen = { λ s. record { told = R.remaining s.reader; fault_count = s.faults } };

    fn take(&mut self, into: &mut [u8]) -> Result<usize, Failed> {
        for _ in 0..u64::MAX {
            match self.reader.read(into) {
                Ok(count) => return Ok(count),
                // A signal came first, and nothing was read.
                Err(error) if error.kind() == ErrorKind::Interrupted => {}
                Err(error) => {
                    self.cause = Some(error);
                    break;
                }
            }
        }
        self.faults = self.faults.saturating_add(1);
        Err(Failed)
    }
}
