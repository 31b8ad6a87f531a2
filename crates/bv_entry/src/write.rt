//! Writes a journal entry.
ghost use Rattle.std.specs.Prelude.{◌≡◌, ◌≤◌, length, All, IfOk, Ok};
ghost use Rattle.spec_record.specs.Field.{IsBlock};
ghost use Rattle.spec_record.specs.Entry.{entry_or_fault};
ghost use Rattle.spec_record.specs.EntryBlocks.{header_bytes, entry_blocks};
ghost use Rattle.bv_entry.specs.Ranges.{InRanges};

use crate::Entry;
use crate::payload::{flag_for, stored_of};
use crate::place::put_place;
use crate::read::checksum_of;
use crate::row::{COMMIT, Commit, HEADER, Header, MAGIC, commit_block, header_block};
use bv_bytes::Block;
use std::alloc::{AllocError, Global};

/// The header of an entry.
fn header_of(number: u64, targets: &[(u64, Block)]) -> Block
    requires { length targets.now ≤ 679 }
    ensures { result ≡ header_bytes (record { number = number; targets = targets.now }) }
{
    let mut header = header_block(&Header {
        magic: MAGIC,
        number,
        kind: HEADER,
        reserved: 0,
        count: targets.len() as u64,
    });
    for (place, (target, payload)) in targets.iter().enumerate() {
        put_place(&mut header, place, *target, flag_for(payload));
    }
    header
}

/// Writes an entry of a volume of `meta` metadata blocks: its header, its payloads as they are
/// stored, and its commit.
pub fn write_entry(alloc: Global, entry: &Entry, meta: u64) -> Result<Vec<Block>, AllocError>
    requires ranges { InRanges meta entry.now }
    requires meta { meta ≤ 679 }
    ensures bytes { IfOk result (λ blocks. blocks.items ≡ entry_blocks entry.now) }
    ensures read { All (λ target. IsBlock target.1) entry.now.targets → IfOk result (λ blocks.
        entry_or_fault blocks.items entry.now.number meta ≡ Ok entry.now) }
{
    let number = entry.number();
    let targets = entry.targets();
    let mut blocks = Vec::with_capacity(alloc, targets.len() + 2)?;
    blocks.push(header_of(number, targets))?;
    for (_, payload) in targets {
        blocks.push(stored_of(payload))?;
    }
    let checksum = checksum_of(&blocks) as u64;
    blocks.push(commit_block(&Commit {
        magic: MAGIC,
        number,
        kind: COMMIT,
        reserved: 0,
        checksum,
    }))?;
    Ok(blocks)
}
