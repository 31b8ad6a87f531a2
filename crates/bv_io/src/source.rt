//! Where bytes come from.
ghost use Rattle.std.specs.Prelude.{OnErr, IfOk};
ghost use Rattle.std.specs.Io.KnownBytes.{Keeps};
ghost use Rattle.bv_io.specs.Faults.{CountsFaults};
ghost use Rattle.bv_io.specs.Streams.{Stream, Takes};

use crate::Failed;

/// A stream of bytes that are taken from its front.
pub trait Source {
    /// The bytes not yet taken, where the source tells them, and how many calls have failed, which
    /// never falls.
    ghost seen: { Self → Stream };

    /// Takes up to `into.len()` bytes into the front of `into`, and says how many. For a nonempty
    /// `into`, 0 means the end of the input. The rest of `into` may hold anything.
    fn take(&mut self, into: &mut [u8]) -> Result<usize, Failed>
        ensures ok { IfOk result (λ n. Takes (seen self.old).told (seen self.new).told into.new n) }
        ensures err { OnErr result (Keeps (seen self.old).told (seen self.new).told) }
        ensures faults { CountsFaults
            (seen self.old).fault_count (seen self.new).fault_count result };
}
