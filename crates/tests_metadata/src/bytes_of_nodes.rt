//! One byte of an inode and of a container changed at each of its 64 places: its highest bit is turned.
//! The faults are those of an independent reading of the rules.

use crate::base::{Lost, rest_of, turned};
use bv_txn::SurveyFault;
use bv_txn::SurveyFault::Node;
use spec_record::NodeFault;
use spec_record::NodeFault::{BadLink, Count, Extent, Flags, Orphan, Version, Zero};
use std::alloc::Global;
use std::process::Abort;
use std::test::Fail;

/// Places from one on and before another, where a changed byte gives one fault, or none.
type Span = (usize, usize, Option<NodeFault>);

/// The inode of the small blob: what isn't a matter of counts.
const INODE: [Span; 6] = [
    (0, 1, Some(Flags(0x81))),
    (1, 2, Some(Flags(0x8001))),
    (4, 8, Some(BadLink { node: 0 })),
    // A survey looks at no root's bytes, and 130 bytes take one block as 2 do.
    (8, 41, None),
    (54, 55, Some(Zero { offset: 54 })),
    (55, 56, Some(Zero { offset: 55 })),
];

/// A place where a changed byte makes a count wrong: what is said and what is found.
type CountAt = (usize, u64, u64);

/// Its counts of blocks and of extents, and the second byte of its size.
const INODE_COUNTS: [CountAt; 7] = [
    (41, 1, 6),
    (48, 129, 1),
    (49, 32_769, 1),
    (50, 8_388_609, 1),
    (51, 2_147_483_649, 1),
    (52, 129, 1),
    (53, 32_769, 1),
];

/// The higher bytes of its size, in version 1 and in version 2, where a tree takes fewer blocks.
const SIZES: [[CountAt; 6]; 2] = [
    [
        (42, 1, 1_031),
        (43, 1, 263_176),
        (44, 1, 67_372_041),
        (45, 1, 17_247_241_226),
        (46, 1, 4_415_293_752_331),
        (47, 1, 1_130_315_200_594_956),
    ],
    [
        (42, 1, 1_030),
        (43, 1, 263_174),
        (44, 1, 67_372_038),
        (45, 1, 17_247_241_222),
        (46, 1, 4_415_293_752_326),
        (47, 1, 1_130_315_200_594_950),
    ],
];

/// The first container of the large blob: what the inode's chain finds but for its count.
const CONTAINER: [Span; 2] = [
    (4, 8, Some(BadLink { node: 2 })),
    (8, 12, Some(BadLink { node: 1 })),
];

const CONTAINER_COUNTS: [CountAt; 2] = [(12, 134, 6), (13, 32_774, 6)];

/// The places where it doesn't read by itself, but for its version.
const CONTAINER_ALONE: [Span; 4] = [
    (0, 1, Some(Flags(0x89))),
    (1, 2, Some(Flags(0x8009))),
    (14, 15, Some(Zero { offset: 14 })),
    (15, 16, Some(Zero { offset: 15 })),
];

/// The version of a node, in version 1 and in version 2.
const VERSIONS: [[Span; 2]; 2] = [
    [(2, 3, Some(Version(0x81))), (3, 4, Some(Version(0x8001)))],
    [(2, 3, Some(Version(0x82))), (3, 4, Some(Version(0x8002)))],
];

/// A node whose bytes are changed one by one.
#[derive(Clone, Copy, Debug, PartialEq, Eq)]
enum Changed {
    /// The small blob's inode.
    Inode,
    /// The large blob's first container, which reads.
    Container,
    /// The same, which doesn't read by itself.
    Broken,
}

/// What a survey finds first, and which blob isn't read any more.
fn found(
    alloc: Global,
    changed: Changed,
    fault: Option<NodeFault>,
) -> Result<(Vec<SurveyFault>, Lost), Fail> {
    let mut faults = Vec::new(alloc);
    let Some(fault) = fault else {
        return Ok((faults, Lost::Neither));
    };
    if changed == Changed::Inode {
        faults.push(Node { node: 0, fault })?;
        return Ok((faults, Lost::Small));
    }
    let alone = changed == Changed::Broken;
    let chain = if alone { BadLink { node: 1 } } else { fault };
    let own = if alone { fault } else { Orphan };
    for (node, fault) in [(1, chain), (2, own), (3, Orphan)] {
        faults.push(Node { node, fault })?;
    }
    Ok((faults, Lost::Large))
}

/// Each place of the span gives its fault. Says how many places that were.
fn gives<R: Abort>(
    rt: &R,
    alloc: Global,
    version: u32,
    changed: Changed,
    span: Span,
) -> Result<usize, Fail> {
    let (mut wanted, lost) = found(alloc, changed, span.2)?;
    for fault in rest_of(lost) {
        wanted.push(*fault)?;
    }
    let node = if changed == Changed::Inode { 0 } else { 2 };
    let mut places = 0usize;
    for place in span.0..span.1 {
        let survey = turned(alloc, version, node, place)?.survey(alloc)?;
        assert_eq!(rt; survey.faults, wanted, "{version} {changed:?} {place}");
        places = places.saturating_add(1);
    }
    Ok(places)
}

/// The same of several spans.
fn all_give<R: Abort>(
    rt: &R,
    alloc: Global,
    version: u32,
    changed: Changed,
    spans: &[Span],
) -> Result<usize, Fail> {
    let mut places = 0usize;
    for span in spans {
        places = places.saturating_add(gives(rt, alloc, version, changed, *span)?);
    }
    Ok(places)
}

/// The same of several counts.
fn counts_give<R: Abort>(
    rt: &R,
    alloc: Global,
    version: u32,
    changed: Changed,
    counts: &[CountAt],
) -> Result<usize, Fail> {
    let mut places = 0usize;
    for (at, said, found) in counts {
        let fault = Count {
            said: *said,
            found: *found,
        };
        let span = (*at, at.saturating_add(1), Some(fault));
        places = places.saturating_add(gives(rt, alloc, version, changed, span)?);
    }
    Ok(places)
}

#[test]
fn a_changed_byte_of_an_inode_gives_the_fault_of_its_row(rt: HostRuntime) -> Result<(), Fail> {
    let alloc = rt.alloc();
    let inode = Changed::Inode;
    let extent = (56, 64, Some(Extent { node: 0, index: 0 }));
    for ((version, sizes), versions) in [1, 2].into_iter().zip(SIZES).zip(VERSIONS) {
        let places = all_give(&rt, alloc, version, inode, &INODE)?
            .saturating_add(all_give(&rt, alloc, version, inode, &versions)?)
            .saturating_add(counts_give(&rt, alloc, version, inode, &INODE_COUNTS)?)
            .saturating_add(counts_give(&rt, alloc, version, inode, &sizes)?)
            .saturating_add(gives(&rt, alloc, version, inode, extent)?);
        assert_eq!(rt; places, 64);
    }
    Ok(())
}

/// The six extents of the container.
fn extents_give<R: Abort>(rt: &R, alloc: Global, version: u32) -> Result<usize, Fail> {
    let mut places = 0usize;
    for (index, from) in [(0, 16), (1, 24), (2, 32), (3, 40), (4, 48), (5, 56)] {
        let span = (from, from + 8, Some(Extent { node: 2, index }));
        places = places.saturating_add(gives(rt, alloc, version, Changed::Container, span)?);
    }
    Ok(places)
}

#[test]
fn a_changed_byte_of_a_container_gives_the_fault_of_its_row(rt: HostRuntime) -> Result<(), Fail> {
    let alloc = rt.alloc();
    let reads = Changed::Container;
    let broken = Changed::Broken;
    for (version, versions) in [1, 2].into_iter().zip(VERSIONS) {
        let places = all_give(&rt, alloc, version, reads, &CONTAINER)?
            .saturating_add(counts_give(&rt, alloc, version, reads, &CONTAINER_COUNTS)?)
            .saturating_add(extents_give(&rt, alloc, version)?)
            .saturating_add(all_give(&rt, alloc, version, broken, &CONTAINER_ALONE)?)
            .saturating_add(all_give(&rt, alloc, version, broken, &versions)?);
        assert_eq!(rt; places, 64);
    }
    Ok(())
}
