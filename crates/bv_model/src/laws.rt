//! Laws of histories: what each function here ensures holds of all of them.

ghost use Rattle.bv_model.specs.Laws.{RoomIsExact};

/// While no write or sync has failed, and where the opening's blobs fit on the volume, the room and
/// the blocks that are taken make up all blocks but block 0: the room is then no difference that
/// was cut off at 0.
pub fn the_room_is_exact_until_a_write_or_sync_fails()
    ensures { RoomIsExact }
{}
