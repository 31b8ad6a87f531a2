//! What an event does to the adds under way.

ghost use Rattle.std.specs.Prelude.{◌≡◌};
ghost use Rattle.bv_model.specs.Taking as T;

use spec_core::{Act, CoreEvent, Reply};
use spec_tree::Digest;

/// What an event does to the adds, by its act and reply.
#[derive(Clone, Copy)]
pub(crate) enum AddEffect {
    Nothing,
    /// An add of so many bytes is under way.
    Begins { root: Digest, size: u64 },
    /// The root's add, if there is one, ends without a publication.
    Ends { root: Digest },
    /// The root's add ends, and its blob is in the map.
    Publishes { root: Digest },
}

fn begun(root: Digest, size: u64, reply: Reply) -> AddEffect
    ensures { result ≡ T.begin_adding root size reply }
{
    match reply {
        Reply::Granted => AddEffect::Begins { root, size },
        _ => AddEffect::Nothing,
    }
}

fn admitted(root: Digest, reply: Reply) -> AddEffect
    ensures { result ≡ T.admit_adding root reply }
{
    match reply {
        Reply::Admitted => AddEffect::Nothing,
        _ => AddEffect::Ends { root },
    }
}

fn settled(root: Digest, reply: Reply) -> AddEffect
    ensures { result ≡ T.settle_adding root reply }
{
    match reply {
        Reply::Published => AddEffect::Publishes { root },
        _ => AddEffect::Ends { root },
    }
}

/// What an event does to the adds.
pub(crate) fn adding_of(event: &CoreEvent) -> AddEffect
    ensures { result ≡ T.adding_of event.now.act event.now.reply }
{
    match event.act {
        Act::Begin { root, size } => begun(root, size, event.reply),
        Act::Admit { root } => admitted(root, event.reply),
        Act::Settle { root } => settled(root, event.reply),
        Act::Retire { root } => AddEffect::Ends { root },
        Act::Put { .. }
        | Act::Open { .. }
        | Act::Fetch { .. }
        | Act::Read { .. }
        | Act::Scan { .. }
        | Act::Close { .. }
        | Act::Unlink { .. }
        | Act::Sync
        | Act::List
        | Act::Unmount => AddEffect::Nothing,
    }
}
