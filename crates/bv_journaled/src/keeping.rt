//! The store of a volume, on a device.

ghost use Rattle.std.specs.Prelude.{◌≡◌, OnOk, OnErr};
ghost use Rattle.std.proofs.Common.{rules};

use crate::store::JournaledStore;
use bv_device::{Block, Device, Failed};
use bv_store::{Publication, Store};
use spec_record::Geometry;
use spec_tree::Digest;
use std::alloc::{AllocError, Global};

impl<D: Device> Store for JournaledStore<D> {
    ghost use Rattle.bv_journaled.specs.Standing.{stored_of, IsHeld, Both};
    ghost use Rattle.bv_journaled.specs.StoreLaws.{leaves_both, shows_newest, counts_events};

    ghost seen = { stored_of };

    ghost both = { Both };

    ghost held = { IsHeld };

    ghost both_holds = { leaves_both };

    ghost shown = { shows_newest };

    ghost counted = { counts_events };

    fn geometry(&self) -> Geometry {
        self.counts()
    }

    fn calls(&self) -> u64 {
        self.dev.calls() - self.opened
    }

    fn faults(&self) -> u64 {
        self.dev.faults()
    }

    fn used_nodes(&self) -> u64 {
        self.used()
    }

    fn ring_room(&self) -> u64 {
        self.ring.room()
    }

    fn blocks_of(&self, alloc: Global, root: Digest) -> Result<Vec<u64>, AllocError> {
        self.places_of(alloc, root)
    }

    fn read(&mut self, at: u64, into: &mut Block) -> Result<(), Failed> {
        self.read_data(at, into)
    }

    fn put(&mut self, at: u64, from: &Block) -> Result<(), Failed> {
        self.write_data(at, from)
    }

    fn plan(
        &mut self,
        alloc: Global,
        purged: &[Digest],
        published: Option<Publication>,
    ) -> Result<(), AllocError> {
        self.forget();
        let prepared = self.prepare(alloc, purged, published)?;
        self.remember(prepared);
        Ok(())
    }

    fn commit(&mut self) -> Result<(), Failed> {
        self.commit_planned()
    }

    fn sync(&mut self) -> Result<(), Failed> {
        self.make_last()
    }

    fn checkpoint(&mut self) -> Result<(), Failed> {
        self.write_in_place()
    }
}
