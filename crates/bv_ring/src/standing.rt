//! The law that ties a ring to the entries of a journal.

ghost use Rattle.std.specs.Prelude.{◌<◌, ◌≤◌, ◌++◌, ◌∷◌, [], List, ℕ};
ghost use Rattle.spec_record.specs.declared.geometry.Geometry.{Geometry};
ghost use Rattle.spec_record.specs.declared.info.Info.{Info};
ghost use Rattle.spec_record.specs.Geometry.{ring_slots};
ghost use Rattle.spec_record.specs.Entry.{Entry};
ghost use Rattle.spec_record.specs.EntryBlocks.{entry_slots};
ghost use Rattle.bv_ring.specs.Cursor.{Cursor, StandsBehind, cursor_at, past, emptied, info_at_cursor};

/// A new ring stands behind the empty journal that begins at its slot with its number. Past an entry
/// that fits it stands behind that entry too, and after a checkpoint behind the empty journal of the
/// info block that was written.
pub fn a_ring_stands_behind_its_entries()
    ensures new { (g : Geometry) (slot number : ℕ) → slot < ring_slots g
        → StandsBehind (cursor_at g slot number (ring_slots g))
        (record { start = slot; number = number }) [] }
    ensures past { (c : Cursor) (i : Info) (es : List Entry) (e : Entry) → entry_slots e ≤ c.room
        → StandsBehind c i es → StandsBehind (past c (entry_slots e)) i (es ++ e ∷ []) }
    ensures emptied { (c : Cursor) → c.slot < ring_slots c.geometry
        → StandsBehind (emptied c) (info_at_cursor c) [] }
{}
