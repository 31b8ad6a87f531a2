//! Fills a buffer from a source, call by call.
ghost use Rattle.std.specs.Prelude.{OnErr, IfOk};
ghost use Rattle.bv_io.specs.Faults.{CountsFaults};
ghost use Rattle.bv_io.specs.Streams.{Fills, TakesFewer};

use crate::{Failed, Source};

/// Takes bytes until `into` is full or the input ends, and says how many came. After `Failed` those
/// that came are gone, and `into` may hold anything.
pub fn fill<S: Source>(source: &mut S, into: &mut [u8]) -> Result<usize, Failed>
    ensures ok { IfOk result
        (λ n. Fills (S.seen source.old).told (S.seen source.new).told into.new n) }
    ensures err { OnErr result
        (TakesFewer (S.seen source.old).told (S.seen source.new).told into.old) }
    ensures faults { CountsFaults
        (S.seen source.old).fault_count (S.seen source.new).fault_count result }
{
    let mut filled = 0;
    while filled < into.len() {
        let count = source.take(&mut into[filled..])?;
        if count == 0 {
            return Ok(filled);
        }
        filled += count;
    }
    Ok(filled)
}
