//! The table of marks.

ghost use Rattle.std.specs.Prelude.{◌≡◌, ◌+◌, ◌/◌, ◌^◌, ◌≤◌, IfOk, replicate, slice_set};

use crate::boss::Boss;
use crate::claimed::Claimed;
use crate::grant::Grant;
use crate::rule::{Rule, View};
use atomic_table::Table;
use std::alloc::{AllocError, Global};

/// A mark for each of a fixed number of blocks, 64 to a word. Block 0 is taken for good.
#[derive(Drop)]
pub struct Claims {
    pub(crate) table: Table<(), View, u64, Rule, Global>,
    pub(crate) blocks: u64,
    ghost range: { (2 ≤ blocks) × (blocks ≤ 2 ^ 22) },
    ghost key: { table.shared.key ≡ blocks },
    ghost packed: { table.shared.table_id.words ≡ (blocks + 63) / 64 },
}

impl Claims {
    ghost use Rattle.std.specs.Prelude.{◌≡◌, ℕ, ◌+◌, ◌-◌, ◌/◌, ◌^◌, ◌<◌, ◌≤◌, [], IfOk, length};
    ghost use Rattle.bv_claims.specs.Blocks.{times, HasEachOnce, IsInCyclicOrder, CoverAllFrom1};
    ghost use Rattle.bv_claims.specs.Rule.{words_for};
    ghost use Rattle.bv_claims.specs.Tokens.{block_count, boss_owned, boss_room, grant_need, grant_start, claimed_gained, claimed_saw, claimed_left, IsBossOf, IsGrantOf, IsClaimedOf};

    /// A table on which no block but block 0 is taken, and its boss, who may give out all others.
    pub fn new(alloc: Global, blocks: u64) -> Result<(Claims, Boss), AllocError>
        requires { (2 ≤ blocks) × (blocks ≤ 2 ^ 22) }
        ensures ok { IfOk result (λ r. IsBossOf r.0 r.1 × (block_count r.0 ≡ blocks)
            × (boss_owned r.1 ≡ []) × (boss_room r.1 ≡ blocks - 1)) }
    {
        let words = first_words(alloc, blocks)?;
        let (table, seat) = Table::of_words(alloc, &words, &blocks)?;
        let room = blocks - 1;
        Ok((Claims { table, blocks }, Boss { seat, room }))
    }

    /// How many blocks the table has, block 0 included.
    pub fn blocks(&self) -> u64
        ensures { result ≡ block_count self.now }
    {
        self.blocks
    }

    /// How many words hold the marks: one for 64 blocks, rounded up.
    pub fn words(&self) -> u64
        ensures { result ≡ words_for (block_count self.now) }
    {
        self.table.word_count() as u64
    }

    /// Claims free blocks until the budget is spent: those from the grant's start on, and then
    /// those from 1 to below the start, each tried at most once. A block is won by one `fetch_or`,
    /// and a word that is full costs one load. It waits for nobody and takes no memory.
    ///
    /// A block that comes free while the claim goes on may be missed. So some budget may be left
    /// though the table has that many free blocks; [`Boss::take`] finds them.
    pub fn claim(&self, grant: Grant) -> Claimed
        requires table { IsGrantOf self.now grant }
        ensures table { IsClaimedOf self.now result }
        ensures need { length (claimed_gained result) + claimed_left result ≡ grant_need grant }
        ensures order { IsInCyclicOrder (grant_start grant) (block_count self.now)
            (claimed_gained result) }
        ensures range { (b : ℕ) → 0 < times b (claimed_gained result)
            → (1 ≤ b) × (b < block_count self.now) }
        ensures distinct { HasEachOnce (claimed_gained result) }
        // Where a budget is left, each block from 1 on was gained, or was seen taken at its step.
        ensures left { 0 < claimed_left result
            → CoverAllFrom1 (block_count self.now) (claimed_gained result) (claimed_saw result) }
    {
        let Grant {
            mut seat,
            mut tally,
            start,
        } = grant;
        self.claim_range(&mut seat, &mut tally, start, self.blocks);
        self.claim_range(&mut seat, &mut tally, 1, start);
        Claimed { seat, tally }
    }
}

// The words of a new table: the bit of block 0 alone is set.
fn first_words(alloc: Global, blocks: u64) -> Result<Vec<u64>, AllocError>
    requires { (2 ≤ blocks) × (blocks ≤ 2 ^ 22) }
    ensures { IfOk result (λ v. v.items ≡ slice_set (replicate ((blocks + 63) / 64) 0) 0 1) }
{
    let count = ((blocks + 63) / 64) as usize;
    let mut words = vec![in alloc; 0u64; count]?;
    words[0] = 1;
    Ok(words)
}
