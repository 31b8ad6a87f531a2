//! The blobs after the log of a history.

ghost use Rattle.std.specs.Prelude.{◌≡◌, [], ◌∷◌, IfOk, OnOk};
ghost use Rattle.std.specs.List.Sorted.{IsStrictlySortedBy};
ghost use Rattle.std.specs.Map.{keys_of};
ghost use Rattle.spec_core.specs.History.{log_of, opening_map};
ghost use Rattle.spec_core.specs.Log.{changed};
ghost use Rattle.spec_tree.specs.Order.{digest_cmp};

use crate::machine::opening_of;
use bv_model::History;
use spec_core::MapChange;
use spec_tree::{Blob, Digest};
use std::alloc::{AllocError, Global};
use std::collections::BTreeMap;

/// Makes one change of the log in a map of blobs.
fn make_change(map: &mut BTreeMap<Digest, Blob>, change: &MapChange) -> Result<(), AllocError>
    ensures { OnOk result (map.new.entries ≡ changed map.old.entries (change.now ∷ [])) }
{
    match change {
        MapChange::Publish { root, blob } => {
            map.insert(*root, *blob)?;
        }
        MapChange::Purge { root, .. } => {
            map.remove(root);
        }
    }
    Ok(())
}

/// The opening map of a history after these changes, which are all of its log.
pub fn blobs_after(
    alloc: Global,
    h: &History,
    log: &[MapChange],
) -> Result<BTreeMap<Digest, Blob>, AllocError>
    requires sorted { IsStrictlySortedBy digest_cmp (keys_of (opening_map h.now.history)) }
    requires log { log.now ≡ log_of h.now.history }
    ensures { IfOk result (λ blobs. blobs.entries
        ≡ changed (opening_map h.now.history) (log_of h.now.history)) }
{
    let mut blobs = opening_of(alloc, h)?;
    for change in log {
        make_change(&mut blobs, change)?;
    }
    Ok(blobs)
}
