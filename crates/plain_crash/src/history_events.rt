//! What timing asks of an event of a history, and of one with the event before it.

ghost use Rattle.std.specs.Prelude.{◌≡◌, ◌+◌, ◌<◌, ◌↔◌, IsTrue};
ghost use Rattle.spec_core.specs.Synced as Y;
ghost use Rattle.spec_crash.specs.Timing as T;

use spec_core::{Act, CoreEvent, Reply};

/// Whether an event of this kind may write and sync.
fn may_call(act: Act) -> bool
    ensures { IsTrue result ↔ T.MayCall act }
{
    matches!(
        act,
        Act::Put { .. } | Act::Settle { .. } | Act::Sync | Act::Unmount
    )
}

/// Whether an event put a block and replied `written`.
pub(crate) fn is_written(event: &CoreEvent) -> bool
    ensures { IsTrue result ↔ T.IsWritten event.now }
{
    matches!((event.act, event.reply), (Act::Put { .. }, Reply::Written))
}

/// Whether an event replied `synced` or `unmounted`.
pub(crate) fn tells_durable(event: &CoreEvent) -> bool
    ensures { result ≡ Y.tells_durable event.now.reply }
{
    matches!(event.reply, Reply::Synced | Reply::Unmounted)
}

/// Whether calls rises only where the event may call.
pub(crate) fn rises_where_it_may(old: &CoreEvent, new: &CoreEvent) -> bool
    ensures { IsTrue result ↔ (old.now.calls < new.now.calls → T.MayCall new.now.act) }
{
    new.calls <= old.calls || may_call(new.act)
}

/// Whether calls rises by one where the event put a block.
pub(crate) fn raises_one_where_written(old: &CoreEvent, new: &CoreEvent) -> bool
    ensures { IsTrue result ↔ (T.IsWritten new.now → new.now.calls ≡ old.now.calls + 1) }
{
    !is_written(new) || (old.calls < new.calls && new.calls - old.calls == 1)
}

/// Whether calls rises where the event made the log durable.
pub(crate) fn rises_where_durable(old: &CoreEvent, new: &CoreEvent) -> bool
    ensures { IsTrue result
        ↔ (IsTrue (Y.tells_durable new.now.reply) → old.now.calls < new.now.calls) }
{
    !tells_durable(new) || old.calls < new.calls
}
