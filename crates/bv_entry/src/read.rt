//! Reads a journal entry.
ghost use Rattle.std.specs.Prelude.{◌≡◌, ◌≤◌, ◌<◌, ◌+◌, ◌++◌, ◌∷◌, [], ◌↔◌, length, take, All, IfOk, OnOk, Ok, Err};
ghost use Rattle.std.specs.List.{concat};
ghost use Rattle.spec_record.specs.declared.entry_fault.EntryFault.{EntryFault as SpecFault};
ghost use Rattle.spec_record.specs.Field.{field, IsBlock};
ghost use Rattle.spec_record.specs.Tests.{IsBetween, value_or_fault};
ghost use Rattle.spec_record.specs.Crc.{crc32 as crc32_of};
ghost use Rattle.spec_record.specs.Places.{block_in};
ghost use Rattle.spec_record.specs.Entry.{entry_tests, entry_or_fault, is_commit, restored, targets_in};
ghost use Rattle.spec_record.specs.Laws.{SpellsEntry};

use crate::Entry;
use crate::payload::with_magic;
use crate::place::{PLACES, flag_at, target_at, wrong_place_of};
use crate::row::{COMMIT, HEADER, MAGIC, commit_in, header_in};
use bv_bytes::{Block, Field, crc_more, ensure, find_set};
use spec_record::EntryFault;
use std::alloc::{AllocError, Global};

/// The largest number of an entry.
const LAST_NUMBER: u64 = (1 << 62) - 1;

/// The reserved bytes at the end of a header.
type LastReserved = Field<8188, 4>;

/// Why no entry was read.
#[derive(Clone, Copy, Debug, PartialEq, Eq)]
pub enum ReadEntryFault {
    /// The blocks don't begin with the entry.
    Entry(EntryFault),
    /// There was no memory for the entry.
    NoMemory,
}

impl From<EntryFault> for ReadEntryFault {
    ghost use Rattle.bv_entry.specs.declared.read.ReadEntryFault.TheVariants.{Entry};

    ghost from_gives = { λ fault e. e ≡ Entry fault };

    fn from(fault: EntryFault) -> Self {
        ReadEntryFault::Entry(fault)
    }
}

impl From<AllocError> for ReadEntryFault {
    ghost use Rattle.bv_entry.specs.declared.read.ReadEntryFault.TheVariants.{NoMemory};

    ghost from_gives = { λ _ e. e ≡ NoMemory };

    fn from(_: AllocError) -> Self {
        ReadEntryFault::NoMemory
    }
}

/// The CRC-32 of blocks, one after another.
pub(crate) fn checksum_of(blocks: &[Block]) -> u32
    ensures { result ≡ crc32_of (concat blocks.now) }
{
    let mut sum = 0;
    for block in blocks {
        sum = crc_more(sum, block);
    }
    sum
}

/// Whether a block is the commit of a number, whatever its checksum.
fn is_commit_of(block: &Block, number: u64) -> bool
    ensures { result ≡ is_commit block.now number }
{
    let commit = commit_in(block);
    commit.magic == MAGIC
        && commit.number == number
        && commit.kind == COMMIT
        && commit.reserved == 0
        && find_set(block, 36, 8156).is_none()
}

/// Tests each row, and gives the count of payloads.
fn count_in(blocks: &[Block], number: u64, meta: u64) -> Result<u64, EntryFault>
    requires some { 0 < length blocks.now }
    requires meta { meta ≤ 679 }
    ensures { result ≡ value_or_fault (entry_tests blocks.now number meta)
        (field (block_in blocks.now 0) 32 8) }
{
    let first = &blocks[0];
    let header = header_in(first);
    ensure!(header.magic == MAGIC => EntryFault::Magic);
    let found = header.number;
    let numbered = found == number && 1 <= number && number <= LAST_NUMBER;
    ensure!(numbered => EntryFault::Number { wanted: number, found });
    ensure!(header.kind == HEADER => EntryFault::Kind { value: header.kind });
    let count = header.count;
    let there = 1 <= count && count <= meta && count as usize + 2 <= blocks.len();
    ensure!(there => EntryFault::Count { value: count });
    if let Some(index) = wrong_place_of(blocks, count, meta) {
        return Err(EntryFault::Target { index });
    }
    let reserved = header.reserved == 0 && LastReserved::get(first) == 0;
    ensure!(reserved => EntryFault::Target { index: PLACES as u64 });
    let last = count as usize + 1;
    let commit = &blocks[last];
    ensure!(is_commit_of(commit, number) => EntryFault::Commit);
    let wanted = commit_in(commit).checksum as u32;
    let found = checksum_of(&blocks[..last]);
    ensure!(wanted == found => EntryFault::Checksum { wanted, found });
    Ok(count)
}

/// The targets of a header, with the payloads as they were.
fn targets_of(
    alloc: Global,
    header: &Block,
    payloads: &[Block],
) -> Result<Vec<(u64, Block)>, AllocError>
    requires { length payloads.now ≤ 679 }
    ensures { IfOk result (λ targets. targets.items ≡ targets_in header.now 0 payloads.now) }
{
    let mut targets = Vec::with_capacity(alloc, payloads.len())?;
    for (place, block) in payloads.iter().enumerate() {
        let target = target_at(header, place);
        push_restored(&mut targets, target, flag_at(header, place), block)?;
    }
    Ok(targets)
}

/// Puts a target at the end, with its payload as it was. It is copied once, into its place.
fn push_restored(
    targets: &mut Vec<(u64, Block)>,
    target: u64,
    flag: u64,
    block: &Block,
) -> Result<(), AllocError>
    ensures { OnOk result
        (targets.new.items ≡ targets.old.items ++ (target, restored flag block.now) ∷ []) }
{
    if flag == 1 {
        targets.push((target, with_magic(block)))?;
    } else {
        targets.push((target, *block))?;
    }
    Ok(())
}

/// Reads the entry of a number with which blocks begin, in a volume of `meta` metadata blocks. It
/// looks at the entry's own blocks alone: two more than there are payloads.
pub fn read_entry(
    alloc: Global,
    blocks: &[Block],
    number: u64,
    meta: u64,
) -> Result<Entry, ReadEntryFault>
    requires some { 0 < length blocks.now }
    requires meta { IsBetween 1 meta 679 }
    ensures value { IfOk result (λ entry. entry_or_fault blocks.now number meta ≡ Ok entry) }
    ensures ok { All IsBlock blocks.now
        → IfOk result (λ entry. SpellsEntry blocks.now number meta entry) }
    ensures err { (fault : SpecFault) → (result ≡ Err (ReadEntryFault.Entry fault))
        ↔ (entry_or_fault blocks.now number meta ≡ Err fault) }
{
    let count = count_in(blocks, number, meta)?;
    let payloads = &blocks[1..count as usize + 1];
    Ok(Entry::new(number, targets_of(alloc, &blocks[0], payloads)?))
}
