//! Gives a sink all of some bytes.
ghost use Rattle.std.specs.Prelude.{OnOk, OnErr};
ghost use Rattle.std.specs.Io.KnownBytes.{Appends};
ghost use Rattle.bv_io.specs.Faults.{CountsFaults};
ghost use Rattle.bv_io.specs.Streams.{GivesPrefix};

use crate::{Failed, Sink};

/// Appends all of `bytes`. After `Failed` the sink has gained a prefix of them.
pub fn give_all<K: Sink>(sink: &mut K, bytes: &[u8]) -> Result<(), Failed>
    ensures ok { OnOk result (Appends (K.seen sink.old).told (K.seen sink.new).told bytes.now) }
    ensures err { OnErr result
        (GivesPrefix (K.seen sink.old).told (K.seen sink.new).told bytes.now) }
    ensures faults { CountsFaults
        (K.seen sink.old).fault_count (K.seen sink.new).fault_count result }
{
    let mut rest = bytes;
    while !rest.is_empty() {
        let count = sink.give(rest)?;
        rest = &rest[count..];
    }
    Ok(())
}
