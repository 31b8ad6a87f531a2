//! The search for free blocks: single steps on the words, which wait for nobody.

ghost use Rattle.std.specs.Prelude.{◌≡◌, ℕ, ◌+◌, ◌-◌, ◌*◌, ◌/◌, ◌%◌, ◌^◌, ◌<◌, ◌≤◌, List, [], true, false};
ghost use Rattle.bv_claims.specs.Search.{HasSearched};

use crate::claims::Claims;
use crate::rule::{Claim, Look, View};
use crate::tally::Tally;
use atomic_table::Seat;

/// How many marks a word has.
pub const MARKS: u64 = 64;

/// The number whose one bit is the mark of the block in its word.
pub fn bit_of(block: u64) -> u64
    ensures { result ≡ 2 ^ (block % 64) }
{
    1 << (block % MARKS)
}

impl Claims {
    // One try of one block: a single `fetch_or` of its bit.
    fn try_block(&self, seat: &mut Seat<(), View>, tally: &mut Tally, block: u64)
        requires table { (seat.old.table_id ≡ self.now.table.shared.table_id)
            × (seat.old.me.1 ≡ []) }
        requires block { (1 ≤ block) × (block < self.now.blocks) }
        requires budget { (0 < tally.old.left) × (tally.old.left ≡ seat.old.me.0.budget) }
        ensures table { (seat.new.table_id ≡ seat.old.table_id) × (seat.new.me.1 ≡ []) }
        ensures tied { tally.new.left ≡ seat.new.me.0.budget }
        ensures searched { HasSearched block (block + 1)
            seat.old.me.0 tally.old.gained.items seat.new.me.0 tally.new.gained.items }
    {
        let words = &self.table.shared;
        let word = (block / MARKS) as usize;
        let found = words.fetch_or::<Claim>(seat, word, bit_of(block));
        if found >> (block % MARKS) & 1 == 0 {
            tally.add(block);
        }
    }

    // Blocks of one word. A word that is full costs one load.
    fn claim_in_word(&self, seat: &mut Seat<(), View>, tally: &mut Tally, from: u64, to: u64)
        requires table { (seat.old.table_id ≡ self.now.table.shared.table_id)
            × (seat.old.me.1 ≡ []) }
        requires blocks { (1 ≤ from) × (from < to) × (to ≤ self.now.blocks) }
        requires one_word { (b : ℕ) → from ≤ b → b < to → b / 64 ≡ from / 64 }
        requires tied { tally.old.left ≡ seat.old.me.0.budget }
        ensures table { (seat.new.table_id ≡ seat.old.table_id) × (seat.new.me.1 ≡ []) }
        ensures tied { tally.new.left ≡ seat.new.me.0.budget }
        ensures searched { HasSearched from to
            seat.old.me.0 tally.old.gained.items seat.new.me.0 tally.new.gained.items }
    {
        if self.look_full(seat, from, to) {
            return;
        }
        for block in from..to {
            if tally.left == 0 {
                return;
            }
            self.try_block(seat, tally, block);
        }
    }

    // Whether the word of these blocks is full. The seat then has seen them all taken.
    fn look_full(&self, seat: &mut Seat<(), View>, from: u64, to: u64) -> bool
        requires table { (seat.old.table_id ≡ self.now.table.shared.table_id)
            × (seat.old.me.1 ≡ []) }
        requires blocks { (from < to) × (to ≤ self.now.blocks) }
        requires one_word { (b : ℕ) → from ≤ b → b < to → b / 64 ≡ from / 64 }
        ensures table { (seat.new.table_id ≡ seat.old.table_id) × (seat.new.me.1 ≡ []) }
        ensures full { result ≡ true → (seat.new.me.0.budget ≡ seat.old.me.0.budget)
            × ((had : List ℕ) → HasSearched from to seat.old.me.0 had seat.new.me.0 had) }
        ensures open { result ≡ false → seat.new.me.0 ≡ seat.old.me.0 }
    {
        let found = self
            .table
            .shared
            .load::<Look>(seat, (from / MARKS) as usize);
        found == u64::MAX
    }

    /// Tries the blocks from `from` on and below `to`, in rising order, until the budget is spent.
    pub fn claim_range(&self, seat: &mut Seat<(), View>, tally: &mut Tally, from: u64, to: u64)
        requires table { (seat.old.table_id ≡ self.now.table.shared.table_id)
            × (seat.old.me.1 ≡ []) }
        requires blocks { (1 ≤ from) × (from ≤ to) × (to ≤ self.now.blocks) }
        requires tied { tally.old.left ≡ seat.old.me.0.budget }
        ensures table { (seat.new.table_id ≡ seat.old.table_id) × (seat.new.me.1 ≡ []) }
        ensures tied { tally.new.left ≡ seat.new.me.0.budget }
        ensures searched { HasSearched from to
            seat.old.me.0 tally.old.gained.items seat.new.me.0 tally.new.gained.items }
    {
        let mut next = from;
        while next < to && tally.left > 0 {
            let end = to.min((next / MARKS + 1) * MARKS);
            self.claim_in_word(seat, tally, next, end);
            next = end;
        }
    }
}
