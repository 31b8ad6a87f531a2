//! Payloads as they are stored: none begins with the magic.
ghost use Rattle.std.specs.Prelude.{◌≡◌, ◌≤◌};
ghost use Rattle.spec_record.specs.Places.{begins_with_magic, is_escape};
ghost use Rattle.spec_record.specs.Entry.{restored};
ghost use Rattle.spec_record.specs.EntryBlocks.{stored, flag_of};

use crate::row::MAGIC;
use bv_bytes::{Block, Field};

/// The first bytes of a block, as a number.
type First = Field<0, 8>;

pub(crate) fn has_magic(block: &Block) -> bool
    ensures { result ≡ begins_with_magic block.now }
{
    First::get(block) == MAGIC
}

/// The flag of a payload: 1 where the magic is taken out.
#[tactic(auto, unfolding(spec_record::specs::EntryBlocks::flag_of))]
pub(crate) fn flag_for(payload: &Block) -> u64
    ensures flag { result ≡ flag_of payload.now }
    ensures below { result ≤ 1 }
{
    if has_magic(payload) { 1 } else { 0 }
}

/// Whether a stored payload is one with this flag.
pub(crate) fn fits_flag(flag: u64, block: &Block) -> bool
    ensures { result ≡ is_escape flag block.now }
{
    (flag == 1 && First::get(block) == 0) || (flag == 0 && !has_magic(block))
}

/// A payload as it is stored.
pub(crate) fn stored_of(payload: &Block) -> Block
    ensures { result ≡ stored payload.now }
{
    let mut block = *payload;
    if has_magic(payload) {
        First::put(&mut block, 0);
    }
    block
}

/// A payload that began with the magic, from the stored block.
pub(crate) fn with_magic(block: &Block) -> Block
    ensures { result ≡ restored 1 block.now }
{
    let mut payload = *block;
    First::put(&mut payload, MAGIC);
    payload
}
