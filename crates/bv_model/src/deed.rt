//! What an event does to the slots and to the blobs.

ghost use Rattle.std.specs.Prelude.{◌≡◌, ◌≤◌};
ghost use Rattle.spec_core.specs.Deeds as C;

use spec_core::{Act, CoreEvent, Deed, Place, Reply};
use spec_tree::Digest;

fn settled(root: Digest, reply: Reply) -> Deed
    ensures { result ≡ C.settle_deed root reply }
{
    match reply {
        Reply::Published => Deed::Publishes { root },
        _ => Deed::Nothing,
    }
}

fn opened(place: Place, root: Digest, reply: Reply) -> Deed
    ensures { result ≡ C.open_deed place root reply }
{
    match reply {
        Reply::Opened { .. } => Deed::Opens { place, root },
        _ => Deed::Nothing,
    }
}

fn closed(place: Place, reply: Reply) -> Deed
    ensures { result ≡ C.close_deed place reply }
{
    match reply {
        Reply::Closed => Deed::Closes { place },
        _ => Deed::Nothing,
    }
}

fn unlinked(root: Digest, reply: Reply) -> Deed
    ensures { result ≡ C.unlink_deed root reply }
{
    match reply {
        Reply::Unlinked => Deed::Unlinks { root },
        _ => Deed::Nothing,
    }
}

fn synced(reply: Reply) -> Deed
    ensures { result ≡ C.sync_deed reply }
{
    match reply {
        Reply::Synced => Deed::Purges,
        _ => Deed::Nothing,
    }
}

fn unmounted(reply: Reply) -> Deed
    ensures { result ≡ C.unmount_deed reply }
{
    match reply {
        Reply::Unmounted => Deed::Empties { purges: true },
        _ => Deed::Empties { purges: false },
    }
}

/// What an event does.
pub(crate) fn deed_of(event: &CoreEvent) -> Deed
    ensures { result ≡ C.deed_of event.now.who event.now.act event.now.reply }
{
    match event.act {
        Act::Settle { root } => settled(root, event.reply),
        Act::Open { slot, root } => opened(event.who.place(slot), root, event.reply),
        Act::Close { slot } => closed(event.who.place(slot), event.reply),
        Act::Unlink { root } => unlinked(root, event.reply),
        Act::Sync => synced(event.reply),
        Act::Unmount => unmounted(event.reply),
        Act::Begin { .. }
        | Act::Admit { .. }
        | Act::Put { .. }
        | Act::Retire { .. }
        | Act::Fetch { .. }
        | Act::Read { .. }
        | Act::Scan { .. }
        | Act::List => Deed::Nothing,
    }
}

/// Whether the device failed while an entry was written: what the entry logs is then in the log,
/// and neither queue nor map has changed by it.
pub(crate) fn fails(event: &CoreEvent) -> bool
    ensures { result ≡ C.fails event.now.act event.now.reply }
{
    matches!(event.act, Act::Settle { .. } | Act::Sync | Act::Unmount)
        && matches!(event.reply, Reply::DeviceFault { .. })
}

/// How many blobs the entry of an event publishes.
pub(crate) fn published_by(act: Act) -> u64
    ensures value { result ≡ C.published_by act }
    ensures bound { result ≤ 1 }
{
    match act {
        Act::Settle { .. } => 1,
        _ => 0,
    }
}
