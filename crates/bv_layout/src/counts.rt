//! The counts that a volume is made with, and their limits.
ghost use Rattle.std.specs.Prelude.{◌≡◌, IfOk};
ghost use Rattle.spec_record.specs.Tests.{IsBetween};
ghost use Rattle.spec_record.specs.Geometry.{IsGeometry, is_block_count, is_node_count, is_journal_count};
ghost use Rattle.bv_layout.specs.Counts.{counts_or_fault};

use spec_record::{FieldName, Geometry};

/// A count that is out of its limits.
#[derive(Clone, Copy, Debug, PartialEq, Eq)]
pub struct WrongCount {
    /// Which count it is: blocks, nodes or journal.
    pub field: FieldName,
    /// The count.
    pub value: u64,
}

/// The blocks of the longest journal.
const MOST_JOURNAL: u64 = 65_536;

pub(crate) fn has_blocks(geometry: Geometry) -> bool
    ensures { result ≡ is_block_count geometry.version geometry.blocks }
{
    let most = if geometry.version == 1 {
        1_048_576
    } else {
        4_194_304
    };
    geometry.blocks >= 2 && geometry.blocks <= most
}

pub(crate) fn has_nodes(geometry: Geometry) -> bool
    ensures { result ≡ is_node_count geometry.version geometry.nodes }
{
    let most = if geometry.version == 1 {
        32_768
    } else {
        65_536
    };
    geometry.nodes >= 128 && geometry.nodes <= most && geometry.nodes % 128 == 0
}

pub(crate) fn has_journal(geometry: Geometry) -> bool
    ensures { result ≡ is_journal_count geometry }
{
    geometry.journal >= geometry.meta() + 3 && geometry.journal <= MOST_JOURNAL
}

/// Tests the counts of a volume of a known version: blocks, nodes and journal, in this order.
pub fn check_counts(geometry: &Geometry) -> Result<(), WrongCount>
    requires { IsBetween 1 geometry.now.version 2 }
    ensures counts { result ≡ counts_or_fault geometry.now }
    ensures ok { IfOk result (λ _. IsGeometry geometry.now) }
{
    let wrong = |field, value| Err(WrongCount { field, value });
    if !has_blocks(*geometry) {
        return wrong(FieldName::Blocks, geometry.blocks);
    }
    if !has_nodes(*geometry) {
        return wrong(FieldName::Nodes, geometry.nodes);
    }
    if !has_journal(*geometry) {
        return wrong(FieldName::Journal, geometry.journal);
    }
    Ok(())
}
