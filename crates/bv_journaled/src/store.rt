//! A store on a device.

ghost use Rattle.std.specs.Prelude.{◌≡◌, ◌<◌, ◌≤◌, [], true, None, Some, OnOk, OnErr, IfSome, IsTrue, option_map};
ghost use Rattle.spec_disk.specs.Disk.{block, reads_right};
ghost use Rattle.spec_record.specs.Geometry.{block_at, total_blocks};
ghost use Rattle.spec_faults.specs.Faults.{CountsFaults};
ghost use Rattle.spec_meta.specs.Blocks.{metadata_at};
ghost use Rattle.bv_device.specs.Told.{now_of};
ghost use Rattle.bv_device.specs.Plan.{a_write, a_sync};
ghost use Rattle.bv_device.specs.Seen.{Performs};
ghost use Rattle.bv_journal.specs.Plans.{checkpoint_plan};
ghost use Rattle.bv_store.specs.Stored.{HasWholeBlocks};
ghost use Rattle.bv_ring.specs.Cursor.{IsCursor, StandsBehind, emptied, info_at_cursor};
ghost use Rattle.bv_journaled.specs.Since.{since};
ghost use Rattle.bv_journaled.specs.Standing.{IsHeld, IsPrepared, IsStanding, Both, stored_of};
ghost use Rattle.bv_device.specs.Reads.{ReadsRight};
ghost use Rattle.bv_journaled.specs.Kept.{KeepsMap, map_at};
ghost use Rattle.bv_journal.specs.Rests.{AtRest};
ghost use Rattle.bv_txn.specs.Metas.{IsLawful};
ghost use Rattle.spec_record.specs.declared.info.Info.{Info};
ghost use Rattle.spec_image.specs.WellFormed.{is_well_formed};

use crate::hints::Hints;
use crate::prepared::Prepared;
use bv_bytes::Field;
use bv_device::{Block, Device, Failed};
use bv_ring::Ring;
use bv_txn::{Change, Meta};
use spec_record::Geometry;
use std::alloc::Global;
use std::marker::Model;

/// A store on a device: data blocks, and a journal of entries that change the map of the blobs in
/// them.
///
/// Contracts see it as a `Standing`.
#[derive(Drop)]
pub struct JournaledStore<D: Device> {
    pub(crate) dev: D,
    /// The writes and syncs of the device before the mount.
    pub(crate) opened: u64,
    /// The metadata with all entries.
    pub(crate) meta: Meta,
    pub(crate) ring: Ring,
    /// What the last entry changed, until it lasts: the blocks of what it purged aren't free yet.
    pub(crate) gone: Vec<Change>,
    pub(crate) planned: Option<Prepared>,
    /// Where nodes are looked for first.
    pub(crate) hints: Hints,
}

impl<D: Device> Model for JournaledStore<D> {
    ghost use Rattle.bv_journaled.specs.Standing.{Standing, IsStanding};

    ghost Value = { Standing };

    ghost view = { λ s. record {
      device = D.seen s.dev;
      opened = s.opened;
      meta = s.meta;
      cursor = s.ring;
      gone = s.gone.items;
      planned = s.planned;
    } };

    ghost invariant = { λ s. IsStanding (record {
      device = D.seen s.dev;
      opened = s.opened;
      meta = s.meta;
      cursor = s.ring;
      gone = s.gone.items;
      planned = s.planned;
    }) };
}

impl<D: Device> JournaledStore<D> {
    /// The store of a volume with an empty journal, on a device that had made so many writes and
    /// syncs when the mount began. Every block reads right since then, as after a recovery that was
    /// Ok. Where what the device tells since then has that journal at rest and each blob kept, the
    /// store can go on from the map of the metadata.
    pub fn new(alloc: Global, dev: D, opened: u64, meta: Meta, ring: Ring) -> JournaledStore<D>
        requires lawful { IsLawful meta.geometry meta.blocks }
        requires cursor { IsCursor ring }
        requires same { ring.geometry ≡ meta.geometry }
        requires total { total_blocks meta.geometry ≤ (D.seen dev).block_count }
        requires formed { is_well_formed (metadata_at meta.geometry meta.blocks) ≡ true }
        requires opened { opened ≤ (D.seen dev).calls_made }
        requires right { IfSome (option_map (since opened) (D.seen dev).told) ReadsRight }
        ensures value { result ≡ record {
          device = D.seen dev;
          opened = opened;
          meta = meta;
          cursor = ring;
          gone = [];
          planned = None;
        } }
        ensures both { IfSome (stored_of result).told (λ d. (i : Info)
            → AtRest meta.geometry i [] None meta.blocks d → StandsBehind ring i []
            → KeepsMap meta.geometry d meta.blocks (map_at meta.geometry meta.blocks)
            → Both result (map_at meta.geometry meta.blocks) (map_at meta.geometry meta.blocks)) }
    {
        let hints = Hints::new(alloc, &meta);
        JournaledStore {
            dev,
            opened,
            meta,
            ring,
            gone: Vec::new(alloc),
            planned: None,
            hints,
        }
    }

    /// The device, which the store gives up.
    pub fn into_device(self) -> D
        ensures { D.seen result ≡ self.device }
    {
        let JournaledStore {
            dev,
            opened: _,
            meta: _,
            ring: _,
            gone: _,
            planned: _,
            hints: _,
        } = self;
        dev
    }

    /// The counts of the volume. What the device tells has each data block, whole.
    pub(crate) fn counts(&self) -> Geometry
        ensures value { result ≡ self.now.meta.geometry }
        ensures whole { IfSome self.now.device.told (HasWholeBlocks self.now.meta.geometry) }
    {
        let _count = self.dev.blocks();
        self.meta.geometry()
    }

    /// Reads a data block.
    pub(crate) fn read_data(&mut self, at: u64, into: &mut Block) -> Result<(), Failed>
        requires { at < self.old.meta.geometry.blocks }
        ensures ok { OnOk result (IfSome self.old.device.told (λ d.
            IsTrue (reads_right d.trace (block_at self.old.meta.geometry at))
            → into.new ≡ block (now_of d) (block_at self.old.meta.geometry at))) }
        ensures told { self.new.device.told ≡ self.old.device.told }
        ensures blocks { self.new.device.block_count ≡ self.old.device.block_count }
        ensures calls { self.new.device.calls_made ≡ self.old.device.calls_made }
        ensures faults { CountsFaults self.old.device.fault_count self.new.device.fault_count
            result }
        ensures standing { IsStanding self.old }
        ensures rest { self.new ≡ record self.old { device = self.new.device } }
    {
        let place = self.meta.geometry().block_at(at);
        self.dev.read(place, into)
    }

    /// The nodes of the blobs of the map.
    pub(crate) fn used(&self) -> u64
        ensures value { result
            ≡ (metadata_at self.now.meta.geometry self.now.meta.blocks).super.used_nodes }
        ensures standing { IsStanding self.now }
    {
        Field::<80, 8>::get(&self.meta.blocks()[0])
    }

    /// Gives up the entry that was planned.
    pub(crate) fn forget(&mut self)
        ensures { self.new ≡ record self.old { planned = None } }
    {
        self.planned = None;
    }

    /// Plans an entry that is prepared for this metadata and number.
    pub(crate) fn remember(&mut self, prepared: Prepared)
        requires { IsPrepared self.old.meta.geometry self.old.meta.blocks self.old.cursor.number
            prepared }
        ensures { self.new ≡ record self.old { planned = Some prepared } }
    {
        self.hints.expect(&prepared);
        self.planned = Some(prepared);
    }

    /// Writes a data block that belongs to no blob.
    pub(crate) fn write_data(&mut self, at: u64, from: &Block) -> Result<(), Failed>
        requires within { at < self.old.meta.geometry.blocks }
        requires free { ¬ IsHeld self.old at }
        ensures performs { Performs result (a_write (block_at self.old.meta.geometry at) from.now)
            self.old.device self.new.device }
        ensures standing { IsStanding self.old }
        ensures rest { self.new ≡ record self.old { device = self.new.device } }
    {
        let place = self.meta.geometry().block_at(at);
        self.dev.write(place, from)
    }

    /// Makes all writes so far last. Then nothing that the last entry purged is held any more.
    pub(crate) fn make_last(&mut self) -> Result<(), Failed>
        ensures performs { Performs result a_sync self.old.device self.new.device }
        ensures standing { IsStanding self.old }
        ensures ok { OnOk result
            (self.new ≡ record self.old { device = self.new.device; gone = [] }) }
        ensures err { OnErr result (self.new ≡ record self.old { device = self.new.device }) }
    {
        self.dev.sync()?;
        self.gone.clear();
        Ok(())
    }

    /// Writes the metadata in place, and empties the journal.
    pub(crate) fn write_in_place(&mut self) -> Result<(), Failed>
        ensures performs { Performs result
            (checkpoint_plan self.old.meta.geometry self.old.meta.blocks
            (info_at_cursor self.old.cursor)) self.old.device self.new.device }
        ensures standing { IsStanding self.old }
        ensures ok { OnOk result (self.new ≡ record self.old {
          device = self.new.device;
          cursor = emptied self.old.cursor;
        }) }
        ensures err { OnErr result (self.new ≡ record self.old { device = self.new.device }) }
    {
        match self.ring.checkpoint(&mut self.dev, self.meta.blocks()) {
            Ok(()) => Ok(()),
            Err(_) => Err(Failed),
        }
    }
}
