//! The memory for an entry that publishes an add is taken before the device is asked.

ghost use Rattle.std.specs.Prelude.{◌≡◌, ◌≤◌, ◌<◌, ◌^◌, ◌+◌, ℕ, IfOk, IfSome, OnOk, OnErr, is_some, length, true, None, Some, Option, Contains};
ghost use Rattle.spec_core.specs.State.{find, among};
ghost use Rattle.spec_rest.specs.Rest.{Map};
ghost use Rattle.spec_tree.specs.declared.Digest.{Digest as Root};
ghost use Rattle.bv_ledger.specs.Entries.{MayPublish, prepared};
ghost use Rattle.bv_store.specs.Stored.{Entry};
ghost use Rattle.bv_volume.specs.Placed.{blocks_at};
ghost use Rattle.bv_volume.specs.Publishing.{MayLieAt, Planned};

use crate::device::blocks_of_all;
use bv_ledger::Ledger;
use bv_space::Space;
use bv_store::{Publication, Store};
use spec_tree::{Blob, Digest};
use std::alloc::{AllocError, Global};

/// More blocks have no room in any memory.
const MOST_BLOCKS: u64 = 1 << 59;

/// Takes the memory for an entry that purges these roots and publishes a blob at these blocks, and
/// answers the blocks of the roots' blobs.
fn plan_publication<S: Store>(
    store: &mut S,
    alloc: Global,
    roots: &[Digest],
    root: Digest,
    blob: Blob,
    blocks: &[u64],
) -> Result<Vec<u64>, AllocError>
    requires number { (S.seen store.old).number < 2 ^ 62 }
    requires lies { (r : Root) → among roots.now r ≡ true
        → is_some (find (S.seen store.old).placed r) ≡ true }
    requires may { MayLieAt (S.seen store.old) (S.held store.old) root blob blocks.now }
    ensures ok { IfOk result (λ all. Planned (S.seen store.old) (S.seen store.new) roots.now root blob
        blocks.now × (all.items ≡ blocks_at (S.seen store.old).placed roots.now)) }
    ensures err { OnErr result ((x : Option Entry)
        × (S.seen store.new ≡ record (S.seen store.old) { planned = x })) }
    ensures both { (a b : Map) → S.both store.old a b → S.both store.new a b }
    ensures held { (b : ℕ) → S.held store.new b → S.held store.old b }
{
    let all = blocks_of_all(store, alloc, roots)?;
    let blocks = Vec::from_slice(alloc, blocks)?;
    store.plan(alloc, roots, Some(Publication { root, blob, blocks }))?;
    Ok(all)
}

/// Takes all memory for the publication of an add, and answers the blocks that the entry purges. The
/// add is then out of the adds in the tables, and its blob in the map. On an `Err` nothing changed.
pub(crate) fn prepare_entry<S: Store>(
    ledger: &mut Ledger,
    space: &mut Space,
    store: &mut S,
    alloc: Global,
    root: Digest,
    blob: Blob,
) -> Result<Vec<u64>, AllocError>
    requires number { (S.seen store.old).number < 2 ^ 62 }
    requires lies { (r : Root) → among ledger.old.queue r ≡ true
        → is_some (find (S.seen store.old).placed r) ≡ true }
    requires publish { MayPublish ledger.old root }
    requires has { is_some (find space.old.adds root) ≡ true }
    requires may { IfSome (find space.old.adds root) (λ v.
        MayLieAt (S.seen store.old) (S.held store.old) root blob v.items) }
    ensures blocks { IfOk result (λ all.
        all.items ≡ blocks_at (S.seen store.old).placed ledger.old.queue) }
    ensures planned { OnOk result (IfSome (find space.old.adds root) (λ v.
        Planned (S.seen store.old) (S.seen store.new) ledger.old.queue root blob v.items)) }
    ensures ledger { OnOk result (ledger.new ≡ prepared ledger.old root) }
    ensures space { space.new ≡ record space.old { spare = space.new.spare } }
    ensures room { IfOk result (λ all. length all.items ≤ space.new.spare) }
    ensures err { OnErr result ((ledger.new ≡ ledger.old) × ((x : Option Entry)
        × (S.seen store.new ≡ record (S.seen store.old) { planned = x }))) }
    ensures both { (a b : Map) → S.both store.old a b → S.both store.new a b }
    ensures held { (b : ℕ) → S.held store.new b → S.held store.old b }
{
    let all = plan_publication(store, alloc, ledger.queue(), root, blob, space.blocks(root))?;
    let count = all.len() as u64;
    if count >= MOST_BLOCKS {
        return Err(AllocError);
    }
    space.reserve(count)?;
    ledger.prepare(root)?;
    Ok(all)
}
