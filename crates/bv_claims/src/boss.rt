//! The one token that gives out blocks and frees them.

ghost use Rattle.std.specs.Prelude.{◌≡◌, ◌+◌, ◌<◌, ◌≤◌, [], true, false, length, vec_len};
ghost use Rattle.std.specs.List.Sorted.{IsNonDecreasing};
ghost use Rattle.bv_claims.specs.Blocks.{times, HaveSameBlocks};
ghost use Rattle.bv_claims.specs.Views.{grant_view};
ghost use Rattle.bv_claims.specs.Views.{after_grant, after_hold, after_free, after_join};
ghost use Rattle.bv_claims.specs.Steps.{IsReviewed};
ghost use Rattle.bv_claims.specs.Search.{HasCompleted};

use crate::claimed::Claimed;
use crate::claims::Claims;
use crate::grant::Grant;
use crate::rule::{Amount, Free, Grants, Hold, Review, Takes, View};
use crate::search::{MARKS, bit_of};
use crate::tally::Tally;
use atomic_table::Seat;
use std::alloc::{AllocError, Global};
use std::marker::Brand;

/// The token that owns all blocks which are neither free nor being claimed, and alone frees.
#[derive(Drop)]
pub struct Boss {
    pub(crate) seat: Seat<(), View>,
    pub(crate) room: u64,
    ghost room_is: { room ≡ seat.me.0.room },
    ghost spent: { seat.me.0.budget ≡ 0 },
    ghost is_boss: { (seat.me.0.boss ≡ true) × (seat.me.1 ≡ []) },
}

impl Boss {
    ghost use Rattle.std.specs.Prelude.{◌≡◌, ℕ, ◌+◌, ◌-◌, ◌<◌, ◌≤◌, [], ◌∷◌, ◌++◌, IsOk, IfOk, OnErr, length, vec_len};
    ghost use Rattle.bv_claims.specs.Blocks.{times, without, consecutive, HaveSameBlocks, IsPartOf, Rises};
    ghost use Rattle.bv_claims.specs.Tokens.{block_count, boss_owned, boss_room, grant_need, grant_start, claimed_gained, claimed_left, IsBossOf, IsGrantOf, IsClaimedOf};

    /// How many blocks the boss may still give out.
    pub fn room(&self) -> u64
        ensures { result ≡ boss_room self.now }
    {
        self.room
    }

    /// Gives out a budget of `need` blocks, to be claimed from the block `start` on. The claim
    /// takes no memory, since its list is made here. On an `Err` the boss is as it was.
    pub fn grant(
        &mut self,
        alloc: Global,
        claims: &Claims,
        need: u64,
        start: u64,
    ) -> Result<Grant, AllocError>
        requires table { IsBossOf claims.now self.old }
        requires room { need ≤ boss_room self.old }
        requires start { (1 ≤ start) × (start < block_count claims.now) }
        ensures table { IsBossOf claims.now self.new }
        ensures ok { IfOk result (λ g. IsGrantOf claims.now g
            × (grant_need g ≡ need) × (grant_start g ≡ start)
            × (boss_room self.new + need ≡ boss_room self.old)) }
        ensures owned { boss_owned self.new ≡ boss_owned self.old }
        ensures err { OnErr result (self.new ≡ self.old) }
    {
        let gained = Vec::with_capacity(alloc, need as usize)?;
        let tally = Tally { gained, left: need };
        let seat = granted::<Brand>(claims, &mut self.seat, need);
        self.room -= need;
        Ok(Grant { seat, tally, start })
    }

    /// Makes blocks that nobody owns the boss's own, while no grant is out. It takes no memory and
    /// always answers Ok: `Err` and `alloc` are for a table that would list the blocks.
    pub fn hold(
        &mut self,
        _alloc: Global,
        claims: &Claims,
        blocks: &[u64],
    ) -> Result<(), AllocError>
        requires table { IsBossOf claims.now self.old }
        // All blocks from 1 on are the boss's or in its room.
        requires idle { length (boss_owned self.old) + boss_room self.old + 1
            ≡ block_count claims.now }
        requires blocks { (b : ℕ) → 0 < times b blocks.now
            → (1 ≤ b) × (b < block_count claims.now)
            × (times b (boss_owned self.old ++ blocks.now) ≡ 1) }
        ensures ok { IsOk result }
        ensures table { IsBossOf claims.now self.new }
        ensures owned { boss_owned self.new ≡ boss_owned self.old ++ blocks.now }
        ensures room { boss_room self.new + length blocks.now ≡ boss_room self.old }
    {
        for block in blocks {
            self.hold_one(claims, *block);
        }
        Ok(())
    }

    /// Makes the `len` blocks from `start` on, which nobody owns, the boss's own, while no grant is
    /// out. It takes no memory.
    pub fn hold_run(&mut self, claims: &Claims, start: u64, len: u64)
        requires table { IsBossOf claims.now self.old }
        requires idle { length (boss_owned self.old) + boss_room self.old + 1
            ≡ block_count claims.now }
        requires run { (1 ≤ start) × (start + len ≤ block_count claims.now) }
        requires nobodys { (b : ℕ) → start ≤ b → b < start + len
            → times b (boss_owned self.old) ≡ 0 }
        ensures table { IsBossOf claims.now self.new }
        ensures owned { boss_owned self.new ≡ boss_owned self.old ++ consecutive start len }
        ensures room { boss_room self.new + len ≡ boss_room self.old }
    {
        for block in start..start + len {
            self.hold_one(claims, block);
        }
    }

    // One block that nobody owns.
    fn hold_one(&mut self, claims: &Claims, block: u64)
        requires table { IsBossOf claims.now self.old }
        requires idle { length (boss_owned self.old) + boss_room self.old + 1
            ≡ block_count claims.now }
        requires block { (1 ≤ block) × (block < block_count claims.now) }
        requires nobodys { times block (boss_owned self.old) ≡ 0 }
        ensures table { IsBossOf claims.now self.new }
        ensures owned { boss_owned self.new ≡ boss_owned self.old ++ block ∷ [] }
        ensures room { boss_room self.new + 1 ≡ boss_room self.old }
    {
        hold_mark(claims, &mut self.seat, block);
        self.room -= 1;
    }

    /// Takes over what a claim has gained, claims what was left of its budget, and answers all the
    /// blocks in rising order. It takes no memory and always finds them, since no one else frees.
    pub fn take(&mut self, claims: &Claims, claimed: Claimed) -> Vec<u64>
        requires table { IsBossOf claims.now self.old × IsClaimedOf claims.now claimed }
        ensures table { IsBossOf claims.now self.new }
        ensures need { vec_len result ≡ length (claimed_gained claimed) + claimed_left claimed }
        ensures rising { Rises 1 result.items (block_count claims.now) }
        ensures gained { IsPartOf (claimed_gained claimed) result.items }
        // As the boss owns each block once, none of the result was the boss's before.
        ensures owned { HaveSameBlocks (boss_owned self.new) (boss_owned self.old ++ result.items) }
        ensures room { boss_room self.new ≡ boss_room self.old }
    {
        let Claimed { seat, mut tally } = claimed;
        complete(claims, &mut self.seat, seat, &mut tally);
        sorted(tally)
    }

    /// Frees blocks of the boss's: their marks become 0, and others may claim them once the room is
    /// given out.
    pub fn free(&mut self, claims: &Claims, blocks: &[u64])
        requires table { IsBossOf claims.now self.old }
        // The boss owns each block once, so these are distinct.
        requires owned { IsPartOf blocks.now (boss_owned self.old) }
        ensures table { IsBossOf claims.now self.new }
        ensures owned { HaveSameBlocks (boss_owned self.old) (boss_owned self.new ++ blocks.now) }
        ensures room { boss_room self.new ≡ boss_room self.old + length blocks.now }
    {
        for block in blocks {
            self.free_one(claims, *block);
        }
    }

    /// Frees the `len` blocks from `start` on, which are the boss's. It takes no memory.
    pub fn free_run(&mut self, claims: &Claims, start: u64, len: u64)
        requires table { IsBossOf claims.now self.old }
        requires owned { IsPartOf (consecutive start len) (boss_owned self.old) }
        ensures table { IsBossOf claims.now self.new }
        ensures owned { HaveSameBlocks (boss_owned self.old)
            (boss_owned self.new ++ consecutive start len) }
        ensures room { boss_room self.new ≡ boss_room self.old + len }
    {
        for block in start..start + len {
            self.free_one(claims, block);
        }
    }

    // One block of the boss's.
    fn free_one(&mut self, claims: &Claims, block: u64)
        requires table { IsBossOf claims.now self.old }
        requires owned { 0 < times block (boss_owned self.old) }
        ensures table { IsBossOf claims.now self.new }
        ensures owned { boss_owned self.new ≡ without block (boss_owned self.old) }
        ensures room { boss_room self.new ≡ boss_room self.old + 1 }
    {
        free_mark(claims, &mut self.seat, block);
        self.room += 1;
    }
}

// Cuts a seat with the budget off the boss's.
fn granted<N: Amount>(claims: &Claims, boss: &mut Seat<(), View>, need: u64) -> Seat<(), View>
    requires need { N.need ≡ need }
    requires table { boss.old.table_id ≡ claims.now.table.shared.table_id }
    requires boss { (boss.old.me.0.boss ≡ true) × (need ≤ boss.old.me.0.room) }
    ensures table { (boss.new.table_id ≡ boss.old.table_id)
        × (result.table_id ≡ boss.old.table_id) }
    ensures boss { boss.new.me ≡ (after_grant need boss.old.me.0, boss.old.me.1) }
    ensures grant { result.me ≡ (grant_view need, []) }
{
    claims.table.shared.split_seat::<Grants<N>>(boss)
}

// Sets the mark of a block that nobody owns, by a single `fetch_or`.
fn hold_mark(claims: &Claims, boss: &mut Seat<(), View>, block: u64)
    requires table { boss.old.table_id ≡ claims.now.table.shared.table_id }
    requires boss { boss.old.me.0.boss ≡ true }
    requires idle { length boss.old.me.0.owned + boss.old.me.0.room + 1 ≡ claims.now.blocks }
    requires block { (1 ≤ block) × (block < claims.now.blocks) }
    requires nobodys { times block boss.old.me.0.owned ≡ 0 }
    ensures table { boss.new.table_id ≡ boss.old.table_id }
    ensures held { boss.new.me ≡ (after_hold block boss.old.me.0, boss.old.me.1) }
    ensures room { 0 < boss.old.me.0.room }
{
    let word = (block / MARKS) as usize;
    let _found = claims
        .table
        .shared
        .fetch_or::<Hold>(boss, word, bit_of(block));
}

// Clears the mark of a block of the boss's, by a single `fetch_and`.
fn free_mark(claims: &Claims, boss: &mut Seat<(), View>, block: u64)
    requires table { boss.old.table_id ≡ claims.now.table.shared.table_id }
    requires boss { boss.old.me.0.boss ≡ true }
    requires block { (1 ≤ block) × (block < claims.now.blocks) }
    requires owned { 0 < times block boss.old.me.0.owned }
    ensures table { boss.new.table_id ≡ boss.old.table_id }
    ensures freed { boss.new.me ≡ (after_free block boss.old.me.0, boss.old.me.1) }
{
    let word = (block / MARKS) as usize;
    let _found = claims
        .table
        .shared
        .fetch_and::<Free>(boss, word, !bit_of(block));
}

// Joins a claimed seat into the boss's, and claims what is left of its budget.
fn complete(claims: &Claims, boss: &mut Seat<(), View>, other: Seat<(), View>, tally: &mut Tally)
    requires table { (boss.old.table_id ≡ claims.now.table.shared.table_id) × (boss.old.me.1 ≡ [])
        × (other.table_id ≡ claims.now.table.shared.table_id) × (other.me.1 ≡ []) }
    requires boss { (boss.old.me.0.boss ≡ true) × (boss.old.me.0.blocks ≡ claims.now.blocks)
        × (boss.old.me.0.budget ≡ 0) }
    requires other { (other.me.0.boss ≡ false) × (tally.old.gained.items ≡ other.me.0.owned)
        × (tally.old.left ≡ other.me.0.budget) }
    ensures table { (boss.new.table_id ≡ boss.old.table_id) × (boss.new.me.1 ≡ []) }
    ensures completed { HasCompleted boss.old.me.0 tally.old.gained.items tally.old.left
        boss.new.me.0 tally.new.gained.items }
{
    join(claims, boss, other);
    claims.claim_range(boss, tally, 1, claims.blocks());
    review(claims, boss);
}

// Adds what another seat has to the boss's.
fn join(claims: &Claims, boss: &mut Seat<(), View>, other: Seat<(), View>)
    requires table { (boss.old.table_id ≡ claims.now.table.shared.table_id)
        × (other.table_id ≡ claims.now.table.shared.table_id) × (other.me.1 ≡ []) }
    requires boss { (boss.old.me.0.boss ≡ true) × (other.me.0.boss ≡ false) }
    ensures table { boss.new.table_id ≡ boss.old.table_id }
    ensures joined { boss.new.me ≡ (after_join boss.old.me.0 other.me.0, boss.old.me.1) }
{
    claims.table.shared.join_seat::<Takes>(boss, other);
}

// Looks at a word, by which the boss learns what the rule says of it.
fn review(claims: &Claims, boss: &mut Seat<(), View>)
    requires table { boss.old.table_id ≡ claims.now.table.shared.table_id }
    requires boss { (boss.old.me.0.boss ≡ true) × (boss.old.me.0.blocks ≡ claims.now.blocks) }
    ensures table { boss.new.table_id ≡ boss.old.table_id }
    ensures same { boss.new.me ≡ boss.old.me }
    ensures reviewed { IsReviewed boss.new.me.0 }
{
    let _found = claims.table.shared.load::<Review>(boss, 0);
}

// The blocks gained, in rising order.
fn sorted(tally: Tally) -> Vec<u64>
    ensures len { vec_len result ≡ vec_len tally.gained }
    ensures same { HaveSameBlocks result.items tally.gained.items }
    ensures sorted { IsNonDecreasing result.items }
{
    let Tally {
        gained: mut blocks,
        left: _,
    } = tally;
    blocks.sort_unstable();
    blocks
}
