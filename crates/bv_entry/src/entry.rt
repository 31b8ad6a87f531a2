//! A journal entry: new bytes for metadata blocks.
ghost use Rattle.std.specs.Prelude.{◌≡◌};

use bv_bytes::Block;
use std::marker::Model;

/// What an entry does: each target, a metadata block by its number from 0, gets new bytes.
///
/// Contracts see it as `spec_record`'s record of a number and targets.
#[derive(Drop)]
pub struct Entry {
    number: u64,
    targets: Vec<(u64, Block)>,
}

impl Model for Entry {
    ghost use Rattle.spec_record.specs.Entry.{Entry as JournalEntry};

    ghost Value = { JournalEntry };

    ghost view = { λ entry. record { number = entry.number; targets = entry.targets.items } };
}

impl Entry {
    /// The entry of this number with these targets.
    pub fn new(number: u64, targets: Vec<(u64, Block)>) -> Self
        ensures { result ≡ record { number = number; targets = targets.items } }
    {
        Entry { number, targets }
    }

    /// The entry's number.
    pub fn number(&self) -> u64
        ensures { result ≡ self.now.number }
    {
        self.number
    }

    /// The targets with their bytes, in order.
    pub fn targets(&self) -> &[(u64, Block)]
        ensures { result.now ≡ self.now.targets }
    {
        &self.targets
    }

    /// The targets with their bytes, which the entry gives up.
    pub fn into_targets(self) -> Vec<(u64, Block)>
        ensures { result.items ≡ self.targets }
    {
        self.targets
    }
}
