//! What the core's changes do to its tables.

ghost use Rattle.std.specs.Prelude.{◌≡◌, ◌++◌, [], OnOk};
ghost use Rattle.spec_core.specs.Log as L;
ghost use Rattle.spec_core.specs.State as S;

use spec_core::MapChange;
use spec_tree::{Blob, Digest};
use std::alloc::AllocError;
use std::collections::{BTreeMap, BTreeSet};

/// Purges a root.
fn purge(
    map: &mut BTreeMap<Digest, Blob>,
    log: &mut Vec<MapChange>,
    root: Digest,
) -> Result<(), AllocError>
    ensures map { OnOk result (map.new.entries ≡ L.without map.old.entries root) }
    ensures log { OnOk result (log.new.items
        ≡ log.old.items ++ L.purge_of (S.find map.old.entries root) root) }
{
    if let Some(blob) = map.remove(&root) {
        log.push(MapChange::Purge { root, blob })?;
    }
    Ok(())
}

/// Purges these roots, in order.
pub(crate) fn purge_all(
    map: &mut BTreeMap<Digest, Blob>,
    log: &mut Vec<MapChange>,
    roots: &[Digest],
) -> Result<(), AllocError>
    ensures map { OnOk result (map.new.entries
        ≡ L.changed map.old.entries (L.purges map.old.entries roots.now)) }
    ensures log { OnOk result (log.new.items
        ≡ log.old.items ++ L.purges map.old.entries roots.now) }
{
    for root in roots {
        purge(map, log, *root)?;
    }
    Ok(())
}

/// Every leaving root goes to the queue's end, in the order of the bytes.
pub(crate) fn let_all_go(
    leaving: &mut BTreeSet<Digest>,
    queue: &mut Vec<Digest>,
) -> Result<(), AllocError>
    ensures queue { OnOk result (queue.new.items ≡ queue.old.items ++ leaving.old.keys) }
    ensures leaving { OnOk result (leaving.new.keys ≡ []) }
{
    while let Some(root) = leaving.pop_first() {
        queue.push(root)?;
    }
    Ok(())
}
