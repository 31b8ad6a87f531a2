//! The entry of a store: what goes before it, and its blocks.

ghost use Rattle.std.specs.Prelude.{◌≡◌, ◌≤◌, ◌<◌, ◌^◌, [], length, is_some, true, None, All, IfSome, OnOk, OnErr};
ghost use Rattle.spec_record.specs.Geometry.{meta_blocks, ring_slots};
ghost use Rattle.spec_image.specs.WellFormed.{is_well_formed};
ghost use Rattle.spec_meta.specs.Blocks.{metadata_at, patched};
ghost use Rattle.bv_device.specs.Reads.{ReadsRight};
ghost use Rattle.bv_device.specs.Seen.{Performs};
ghost use Rattle.bv_journal.specs.Plans.{ring_writes};
ghost use Rattle.bv_ring.specs.Cursor.{past};
ghost use Rattle.bv_journaled.specs.Entering.{room_plan, with_room, entry_plan, StopsShort};
ghost use Rattle.bv_journaled.specs.Standing.{IsStanding, stored_of};

use crate::prepared::Prepared;
use crate::store::JournaledStore;
use bv_device::{Block, Device, Failed};
use bv_entry::Entry;
use bv_txn::Change;
use spec_tree::Digest;

impl<D: Device> JournaledStore<D> {
    /// Makes room in the ring for so many blocks, by a checkpoint where it has too little.
    fn make_room(&mut self, count: u64) -> Result<(), Failed>
        ensures performs { Performs result
            (room_plan self.old.meta.geometry self.old.cursor self.old.meta.blocks count)
            self.old.device self.new.device }
        ensures ok { OnOk result (self.new ≡ record self.old {
          device = self.new.device;
          cursor = with_room self.old.cursor count;
        }) }
        ensures err { OnErr result (self.new ≡ record self.old { device = self.new.device }) }
    {
        if count <= self.ring.room() {
            return Ok(());
        }
        self.write_in_place()
    }

    /// Writes the blocks of an entry behind the others.
    fn append(&mut self, blocks: &[Block]) -> Result<(), Failed>
        requires none { self.old.planned ≡ None }
        requires number { self.old.cursor.number < 2 ^ 62 }
        requires fits { length blocks.now ≤ self.old.cursor.room }
        ensures performs { Performs result
            (ring_writes self.old.cursor.geometry self.old.cursor.slot blocks.now)
            self.old.device self.new.device }
        ensures ok { OnOk result (self.new ≡ record self.old {
          device = self.new.device;
          cursor = past self.old.cursor (length blocks.now);
        }) }
        ensures err { OnErr result (self.new ≡ record self.old { device = self.new.device }) }
    {
        match self.ring.append(&mut self.dev, blocks) {
            Ok(()) => Ok(()),
            Err(_) => Err(Failed),
        }
    }

    /// Makes all writes so far last, makes room, and writes the blocks of an entry.
    fn write_entry(&mut self, blocks: &[Block]) -> Result<(), Failed>
        requires none { self.old.planned ≡ None }
        requires number { self.old.cursor.number < 2 ^ 62 }
        requires few { length blocks.now ≤ ring_slots self.old.meta.geometry }
        ensures performs { Performs result
            (entry_plan self.old.meta.geometry self.old.cursor self.old.meta.blocks blocks.now)
            self.old.device self.new.device }
        ensures standing { IsStanding self.old }
        ensures ok { OnOk result (self.new ≡ record self.old {
          device = self.new.device;
          cursor = past (with_room self.old.cursor (length blocks.now)) (length blocks.now);
          gone = [];
        }) }
        ensures err { OnErr result (StopsShort self.old self.new) }
    {
        self.make_last()?;
        self.make_room(blocks.len() as u64)?;
        self.append(blocks)
    }

    /// Takes the planned entry.
    fn take_planned(&mut self) -> Option<Prepared>
        ensures value { result ≡ self.old.planned }
        ensures standing { IsStanding self.old }
        ensures rest { self.new ≡ record self.old { planned = None } }
    {
        self.planned.take()
    }

    /// Makes the changes of an entry in memory, once a sync and its blocks were Ok.
    fn enter(&mut self, entry: &Entry, purged: &[Digest], changes: Vec<Change>)
        requires none { self.old.planned ≡ None }
        requires below { All (λ t. t.0 < meta_blocks self.old.meta.geometry) entry.now.targets }
        requires formed { is_well_formed (metadata_at self.old.meta.geometry
            (patched entry.now.targets self.old.meta.blocks)) ≡ true }
        requires right { IfSome (stored_of self.old).told ReadsRight }
        ensures { self.new ≡ record self.old {
          meta = record self.old.meta { blocks = patched entry.now.targets self.old.meta.blocks };
          gone = changes.items;
        } }
    {
        self.meta.apply(entry);
        self.hints.follow(purged, &changes);
        self.gone = changes;
    }

    /// Writes the planned entry, and makes its changes in memory.
    pub(crate) fn commit_planned(&mut self) -> Result<(), Failed>
        requires planned { is_some self.old.planned ≡ true }
        requires number { self.old.cursor.number < 2 ^ 62 }
        ensures standing { IsStanding self.old }
        ensures performs { IfSome self.old.planned (λ p. Performs result
            (entry_plan self.old.meta.geometry self.old.cursor self.old.meta.blocks p.blocks.items)
            self.old.device self.new.device) }
        ensures ok { OnOk result (IfSome self.old.planned (λ p. self.new ≡ record self.old {
          device = self.new.device;
          meta = record self.old.meta { blocks = patched p.entry.targets self.old.meta.blocks };
          cursor = past (with_room self.old.cursor (length p.blocks.items)) (length p.blocks.items);
          gone = p.changes.items;
          planned = None;
        })) }
        ensures err { OnErr result (StopsShort self.old self.new) }
    {
        let Some(planned) = self.take_planned() else {
            return Err(Failed);
        };
        let Prepared {
            purged,
            published: _,
            changes,
            entry,
            blocks,
        } = planned;
        self.write_entry(&blocks)?;
        self.enter(&entry, &purged, changes);
        Ok(())
    }
}
