//! The law of a scan's replay.

ghost use Rattle.std.specs.Prelude.{List};
ghost use Rattle.spec_disk.specs.Disk.{Blocks};
ghost use Rattle.spec_record.specs.declared.geometry.Geometry.{Geometry};
ghost use Rattle.spec_record.specs.declared.info.Info.{Info};
ghost use Rattle.spec_record.specs.Entry.{Entry};
ghost use Rattle.bv_device.specs.Told.{Disk, now_of};
ghost use Rattle.bv_journal.specs.Rests.{Opened};
ghost use Rattle.bv_replay.specs.declared.replay.Replay.{Replay};
ghost use Rattle.bv_replay.specs.Found.{IsReplayOf};
ghost use Rattle.bv_replay.specs.Stops.{MayRecover};

/// The replay of what reads give, on a disk that was opened, is one that may be recovered: it has the
/// entries, the stale slots and the next entry's place that the synced disk has.
pub fn a_scan_may_be_recovered()
    ensures { (g : Geometry) (i : Info) (es : List Entry) (meta : Blocks) (d : Disk) (r : Replay)
        → Opened g i es meta d → IsReplayOf g (now_of d) r → MayRecover g i meta d r }
{}
