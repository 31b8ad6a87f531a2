//! The history and the store that a mount begins with.
ghost use Rattle.std.specs.Prelude.{◌≡◌, ◌≤◌, IfSome};
ghost use Rattle.spec_record.specs.Geometry.{ring_slots, total_blocks};
ghost use Rattle.spec_image.specs.Blobs.{blob_map};
ghost use Rattle.spec_core.specs.History.{opening_map};
ghost use Rattle.spec_crash.specs.Crash.{CrashPrefix};
ghost use Rattle.bv_ring.specs.Cursor.{cursor_at};
ghost use Rattle.bv_journaled.specs.Standing.{stored_of, Both};
ghost use Rattle.bv_volume.specs.Seen.{Opened};
ghost use Rattle.bv_mounted.specs.Mounts.{WasRecovered, first_standing, history_of, opening_of, records_in};

use bv_device::Device;
use bv_journaled::JournaledStore;
use bv_model::History;
use bv_mount::Inspected;
use bv_ring::Ring;
use spec_core::Setting;
use spec_tree::Digest;
use std::alloc::Global;

/// The history that a mount begins with.
pub(crate) fn first_history(
    alloc: Global,
    inspected: &Inspected,
    opening: Vec<(Digest, u64, u32)>,
) -> History
    requires { opening.items ≡ opening_of (blob_map (records_in inspected.now)) }
    ensures { result ≡ record { history = history_of inspected.now; spare = 0 } }
{
    let setting = Setting {
        blocks: inspected.geometry.blocks,
        nodes: inspected.geometry.nodes,
        version: inspected.geometry.version,
    };
    History::new(alloc, setting, opening)
}

/// The store of a volume on a device that has done its recovery since it had made so many calls.
/// Where the device was settled then, and held the volume's blobs whole, the theorem of stops holds
/// of the recovery, and the store can go on from these blobs.
pub(crate) fn store_of<D: Device>(
    alloc: Global,
    dev: D,
    opened: u64,
    inspected: Inspected,
    ring: Ring,
) -> JournaledStore<D>
    requires total { total_blocks inspected.geometry ≤ (D.seen dev).block_count }
    requires opened { opened ≤ (D.seen dev).calls_made }
    requires told { IfSome (D.seen dev).told (WasRecovered inspected opened) }
    requires ring { ring ≡ cursor_at inspected.geometry inspected.replay.next_slot
        inspected.replay.next_number (ring_slots inspected.geometry) }
    ensures value { result ≡ first_standing (D.seen dev) opened inspected.meta ring }
    ensures safe { Opened (stored_of result) (history_of inspected)
        → IfSome (stored_of result).told (λ d. CrashPrefix d.base d.trace (history_of inspected)
        × Both result (opening_map (history_of inspected)) (opening_map (history_of inspected))) }
{
    JournaledStore::new(alloc, dev, opened, inspected.meta, ring)
}
