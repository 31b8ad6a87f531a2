//! Reads a source to its end, up to a limit.
ghost use Rattle.std.specs.Prelude.{◌≡◌, ◌↔◌, ◌+◌, ◌-◌, ◌<◌, ◌≤◌, min, vec_len, IfOk, IfSome, OnErr, IsErrOf};
ghost use Rattle.bv_io.specs.declared.reading.ReadAllFault.TheVariants.{ReadFault, NoMemory};
ghost use Rattle.bv_io.specs.Faults.{CountsFaultsWhere};
ghost use Rattle.bv_io.specs.Streams.{TakesAll, TakesSome, taken_count};

use crate::{Failed, Source};
use std::alloc::{AllocError, Global};

/// How many bytes are asked for at once.
const PIECE: usize = 8192;

/// Why a source was not read to its end.
#[derive(Clone, Copy, Debug, PartialEq, Eq)]
pub enum ReadAllFault {
    /// More bytes came than the limit allows.
    TooLong,
    /// The source failed.
    ReadFault,
    /// There was no memory for the bytes.
    NoMemory,
}

impl From<Failed> for ReadAllFault {
    ghost from_gives = { λ _ e. e ≡ ReadFault };

    fn from(_: Failed) -> Self {
        ReadAllFault::ReadFault
    }
}

impl From<AllocError> for ReadAllFault {
    ghost from_gives = { λ _ e. e ≡ NoMemory };

    fn from(_: AllocError) -> Self {
        ReadAllFault::NoMemory
    }
}

/// All the bytes that a source has left, of which there may be `limit`. After a fault the bytes
/// that were taken are gone. Each turn takes a byte at least, so there are at most `limit + 2`.
pub fn read_all<S: Source>(
    alloc: Global,
    source: &mut S,
    limit: u64,
) -> Result<Vec<u8>, ReadAllFault>
    ensures ok { IfOk result
        (λ bytes. TakesAll (S.seen source.old).told (S.seen source.new).told bytes.items) }
    ensures within { IfOk result (λ bytes. vec_len bytes ≤ limit) }
    ensures err { OnErr result (TakesSome (S.seen source.old).told (S.seen source.new).told) }
    ensures too_long { IfSome (taken_count (S.seen source.old).told (S.seen source.new).told)
        (λ n. (n ≤ limit + 1) × ((result ≡ Err ReadAllFault.TooLong) ↔ (limit < n))) }
    ensures faults { CountsFaultsWhere (result ≡ Err ReadAllFault.ReadFault)
        (S.seen source.old).fault_count (S.seen source.new).fault_count }
{
    let mut bytes = Vec::new(alloc);
    let mut piece = [0; PIECE];
    loop {
        let room = limit - bytes.len() as u64;
        let most = room.min(PIECE as u64 - 1) as usize + 1;
        let count = source.take(&mut piece[..most])?;
        if count == 0 {
            return Ok(bytes);
        }
        if count as u64 > room {
            return Err(ReadAllFault::TooLong);
        }
        bytes.extend_from_slice(&piece[..count])?;
    }
}
