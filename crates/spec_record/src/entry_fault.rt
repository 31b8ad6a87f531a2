//! Why blocks are no journal entry of a number.

/// The first test of an entry that fails.
///
/// The variants stand in the order of the tests.
#[derive(Clone, Copy, Debug, PartialEq, Eq)]
pub enum EntryFault {
    /// The first block doesn't begin with the magic of an entry.
    Magic,
    /// The number that was found isn't the wanted one, or the wanted one is out of its range.
    Number { wanted: u64, found: u64 },
    /// The first block isn't a header.
    Kind { value: u64 },
    /// The number of payloads is out of its range, or so many blocks aren't there.
    Count { value: u64 },
    /// The first place of the header, from 0, whose target, flag or escape is wrong; 679 stands
    /// for the header's two reserved fields.
    Target { index: u64 },
    /// The block after the payloads isn't a commit of this number, zeros in its rest.
    Commit,
    /// The stored checksum, and the one that the header and the payloads have.
    Checksum { wanted: u32, found: u32 },
}
