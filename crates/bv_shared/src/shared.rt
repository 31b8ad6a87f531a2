//! The value behind the lock, and how it begins and ends.
ghost use Rattle.std.specs.Prelude.{◌≡◌, ◌≤◌, [], IfOk, IfErr};
ghost use Rattle.spec_core.specs.Synced.{Caused};
ghost use Rattle.spec_orderly.specs.Slots.{AreMounted};
ghost use Rattle.bv_shared.specs.KeptPages.{KeptPages, KeptPages-prop};
ghost use Rattle.bv_shared.specs.Moments.{Moments};
ghost use Rattle.bv_shared.specs.Since.{AreOfOneDisk, Since, Since-prop};

use bv_cache::Kept;
use bv_store::Store;
use bv_volume::Volume;
use std::alloc::{AllocError, Global};
use std::snapshot::Snapshot;

/// A mounted volume, and the pages of blobs that were closed. Contracts alone see how the volume
/// was at the opening.
pub struct Shared<'t, S: Store> {
    pub(crate) volume: Volume<'t, S>,
    pub(crate) kept: Kept,
    pub(crate) opening: Snapshot<Volume<'t, S>>,
    ghost since: { Since opening.value volume } by { Since-prop opening.value volume },
    ghost pages: { KeptPages volume kept } by { KeptPages-prop volume kept },
}

impl<'t, S: Store> Shared<'t, S> {
    /// The value of a volume whose history has no event. For want of memory the volume comes back.
    pub fn new(
        alloc: Global,
        volume: Volume<'t, S>,
    ) -> Result<Shared<'t, S>, (Volume<'t, S>, AllocError)>
        requires fresh { volume.history.events ≡ [] }
        requires disk { AreOfOneDisk volume.store.began volume.store.told }
        ensures ok { IfOk result (λ s. (s.volume ≡ volume.entry)
            × (s.opening.value ≡ volume.entry)) }
        ensures err { IfErr result (λ e. e.0 ≡ volume.entry) }
    {
        let kept = match Kept::new(alloc) {
            Ok(kept) => kept,
            Err(error) => return Err((volume, error)),
        };
        let opening = Snapshot::of(&volume);
        Ok(Shared {
            volume,
            kept,
            opening,
        })
    }

    /// The volume, with its history as it stands. As each event ended, the disk had the blobs of the
    /// map, while no write or sync had failed.
    pub fn into_volume(self) -> Volume<'t, S>
        ensures volume { result ≡ self.entry.volume }
        ensures caused { Caused result.history self.entry.opening.value.store.faults
            result.store.faults }
        ensures disk { AreOfOneDisk result.store.began result.store.told }
        ensures later { self.entry.opening.value.store.faults ≤ result.store.faults }
        ensures moments { Moments result }
        ensures mounted { AreMounted result.history.events }
    {
        let Shared {
            volume,
            kept: _,
            opening: _,
        } = self;
        volume
    }
}
