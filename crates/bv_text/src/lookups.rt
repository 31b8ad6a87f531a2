//! What the tables of the core have at a root or a place.

ghost use Rattle.std.specs.Prelude.{◌≡◌, ◌||◌};
ghost use Rattle.spec_core.specs.State as S;

use spec_core::Place;
use spec_tree::Digest;
use std::collections::{BTreeMap, BTreeSet};

/// Whether a root is in the queue.
fn is_queued(queue: &[Digest], root: Digest) -> bool
    ensures { result ≡ S.among queue.now root }
{
    queue.iter().any(|x| root.cmp(x).is_eq())
}

/// Whether a root was unlinked and isn't purged.
pub(crate) fn is_unlinked(leaving: &BTreeSet<Digest>, queue: &[Digest], root: Digest) -> bool
    ensures { result ≡ (S.among leaving.now.keys root || S.among queue.now root) }
{
    leaving.contains(&root) || is_queued(queue, root)
}

/// Whether a slot holds a root.
pub(crate) fn is_held(slots: &BTreeMap<Place, Digest>, root: Digest) -> bool
    ensures { result ≡ S.is_held slots.now.entries root }
{
    slots.iter().any(|(_, x)| root.cmp(x).is_eq())
}
