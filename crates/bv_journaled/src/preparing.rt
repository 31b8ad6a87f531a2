//! An entry prepared: its changes, its blocks, and the memory for both.

ghost use Rattle.std.specs.Prelude.{◌≡◌, ◌<◌, ◌^◌, ℕ, true, map, IfOk, IfSome, Contains};
ghost use Rattle.spec_record.specs.Geometry.{IsGeometry};
ghost use Rattle.spec_image.specs.WellFormed.{is_well_formed};
ghost use Rattle.bv_store.specs.Stored.{CanWrite, HasNodes};
ghost use Rattle.bv_txn.specs.Changes.{change_of};
ghost use Rattle.bv_txn.specs.Metas.{metadata_of};
ghost use Rattle.bv_journaled.specs.Preparing.{Makes};
ghost use Rattle.bv_journaled.specs.Publishing.{CanTake};
ghost use Rattle.bv_journaled.specs.Standing.{IsHeld, IsPrepared, asked, placed_at, stored_of};

use crate::drawing::draw_up;
use crate::hints::Hints;
use crate::prepared::Prepared;
use crate::publishing::publication_of;
use crate::purging::purges;
use crate::store::JournaledStore;
use bv_device::Device;
use bv_store::Publication;
use bv_txn::{Change, Meta};
use spec_tree::Digest;
use std::alloc::{AllocError, Global};

/// The changes that purge these roots and then publish this.
fn changes_for(
    alloc: Global,
    meta: &Meta,
    hints: &Hints,
    purged: &[Digest],
    published: &Option<Publication>,
) -> Result<Vec<Change>, AllocError>
    requires lawful { IsGeometry meta.now.geometry }
    requires formed { is_well_formed (metadata_of meta.now) ≡ true }
    requires fits { IfSome published.now (CanTake meta.now) }
    ensures { IfOk result (λ changes. Makes (metadata_of meta.now)
        (record { purged = purged.now; published = published.now })
        (map change_of changes.items)) }
{
    let mut changes = purges(alloc, meta, hints, purged)?;
    match published {
        None => Ok(changes),
        Some(publication) => {
            let change = publication_of(alloc, meta, hints.free_from(), publication)?;
            changes.push(change)?;
            Ok(changes)
        }
    }
}

impl<D: Device> JournaledStore<D> {
    /// The entry that purges these roots and then publishes this.
    pub(crate) fn prepare(
        &self,
        alloc: Global,
        purged: &[Digest],
        published: Option<Publication>,
    ) -> Result<Prepared, AllocError>
        requires number { self.now.cursor.number < 2 ^ 62 }
        requires fits { CanWrite self.now.meta.geometry
            (placed_at self.now.meta.geometry self.now.meta.blocks)
            (record { purged = purged.now; published = published }) }
        requires nodes { IfSome published (HasNodes (stored_of self.now)) }
        requires free { IfSome published (λ p. (b : ℕ) → Contains p.blocks.items b
            → ¬ IsHeld self.now b) }
        ensures fits { IfOk result (IsPrepared self.now.meta.geometry self.now.meta.blocks
            self.now.cursor.number) }
        ensures asked { IfOk result (λ p.
            asked p ≡ record { purged = purged.now; published = published }) }
    {
        let changes = changes_for(alloc, &self.meta, &self.hints, purged, &published)?;
        let (entry, blocks) = draw_up(alloc, &self.meta, self.ring.next(), &changes)?;
        let purged = Vec::from_slice(alloc, purged)?;
        Ok(Prepared {
            purged,
            published,
            changes,
            entry,
            blocks,
        })
    }
}
