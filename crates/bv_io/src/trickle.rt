//! A stream that moves one byte in a call, whatever room or piece it is offered.
ghost use Rattle.std.specs.Prelude.{◌≤◌, IfOk, OnErr};
ghost use Rattle.std.specs.Io.KnownBytes.{Keeps};
ghost use Rattle.bv_io.specs.Faults.{CountsFaults};
ghost use Rattle.bv_io.specs.Streams.{Takes, Gives};

use crate::{Failed, Sink, Source};

/// A source or a sink behind which each call moves at most one byte.
#[derive(Drop)]
pub struct Trickle<T> {
    pub inner: T,
}

impl<S: Source> Source for Trickle<S> {
    ghost seen = { λ t. S.seen t.inner };

    fn take(&mut self, into: &mut [u8]) -> Result<usize, Failed>
        ensures ok { IfOk result
            (λ n. Takes (S.seen self.old.inner).told (S.seen self.new.inner).told into.new n) }
        ensures one { IfOk result (λ n. n ≤ 1) }
        ensures err { OnErr result
            (Keeps (S.seen self.old.inner).told (S.seen self.new.inner).told) }
        ensures faults { CountsFaults
            (S.seen self.old.inner).fault_count (S.seen self.new.inner).fault_count result }
    {
        let room = into.len().min(1);
        self.inner.take(&mut into[..room])
    }
}

impl<K: Sink> Sink for Trickle<K> {
    ghost seen = { λ t. K.seen t.inner };

    fn give(&mut self, from: &[u8]) -> Result<usize, Failed>
        ensures ok { IfOk result
            (λ n. Gives (K.seen self.old.inner).told (K.seen self.new.inner).told from.now n) }
        ensures one { IfOk result (λ n. n ≤ 1) }
        ensures err { OnErr result
            (Keeps (K.seen self.old.inner).told (K.seen self.new.inner).told) }
        ensures faults { CountsFaults
            (K.seen self.old.inner).fault_count (K.seen self.new.inner).fault_count result }
    {
        self.inner.give(&from[..from.len().min(1)])
    }
}
