//! Whether the faults of a history came from a device.

ghost use Rattle.std.specs.Prelude.{◌≡◌, ◌↔◌, ◌≤◌, IsTrue};
ghost use Rattle.std.specs.Option.{option_to_list};
ghost use Rattle.spec_faults.specs.Faults.{Rose};
ghost use Rattle.spec_core.specs.Synced as Y;

use bv_model::History;
use spec_core::Reply;

/// The number of the fault that a reply tells of.
fn fault_of(reply: Reply) -> Option<u64>
    ensures { option_to_list result ≡ Y.fault_of reply }
{
    match reply {
        Reply::DeviceFault { fault } | Reply::ReadFault { fault } => Some(fault),
        _ => None,
    }
}

/// Whether a count of faults rose from `before` to `now`, which is at most `last`.
fn rose_within(before: u64, now: u64, last: u64) -> bool
    ensures { IsTrue result ↔ Rose before now × (now ≤ last) }
{
    now <= last && before.saturating_add(1) <= now
}

/// Whether the faults of a history came from a device whose count of faults rose from `first` to
/// `last`.
pub fn is_caused(h: &History, first: u64, last: u64) -> bool
    ensures { IsTrue result ↔ Y.Caused h.now.history first last }
{
    let mut before = first;
    for event in h.events() {
        if let Some(fault) = fault_of(event.reply) {
            if !rose_within(before, fault, last) {
                return false;
            }
            before = fault;
        }
    }
    true
}
