//! Where bytes go to.
ghost use Rattle.std.specs.Prelude.{OnErr, IfOk};
ghost use Rattle.std.specs.Io.KnownBytes.{Keeps};
ghost use Rattle.bv_io.specs.Faults.{CountsFaults};
ghost use Rattle.bv_io.specs.Streams.{Stream, Gives};

use crate::Failed;

/// A stream of bytes that are appended at its end.
pub trait Sink {
    /// The bytes given so far, where the sink tells them, and how many calls have failed, which
    /// never falls.
    ghost seen: { Self → Stream };

    /// Appends up to `from.len()` bytes, the first of `from`, and says how many: of a nonempty
    /// `from` at least one. A sink that can take none answers `Failed`, and was given nothing.
    fn give(&mut self, from: &[u8]) -> Result<usize, Failed>
        ensures ok { IfOk result (λ n. Gives (seen self.old).told (seen self.new).told from.now n) }
        ensures err { OnErr result (Keeps (seen self.old).told (seen self.new).told) }
        ensures faults { CountsFaults
            (seen self.old).fault_count (seen self.new).fault_count result };
}
