//! What the tables of the core have at a root or a place.

ghost use Rattle.std.specs.Prelude.{◌≡◌, ◌++◌, ◌||◌, cond, None, length, filter, not};
ghost use Rattle.spec_core.specs.Choice.{is_empty};
ghost use Rattle.spec_core.specs.State as S;

use spec_core::Place;
use spec_tree::{Blob, Digest};
use std::collections::{BTreeMap, BTreeSet};

/// Whether a root is in the queue.
fn is_queued(queue: &[Digest], root: Digest) -> bool
    ensures { result ≡ S.among queue.now root }
{
    queue.iter().any(|x| root.cmp(x).is_eq())
}

/// Whether a root was unlinked and isn't purged.
pub(crate) fn is_unlinked(leaving: &BTreeSet<Digest>, queue: &[Digest], root: Digest) -> bool
    ensures { result ≡ (S.among leaving.now.keys root || S.among queue.now root) }
{
    leaving.contains(&root) || is_queued(queue, root)
}

/// Whether a slot holds a root.
pub(crate) fn is_held(slots: &BTreeMap<Place, Digest>, root: Digest) -> bool
    ensures { result ≡ S.is_held slots.now.entries root }
{
    slots.iter().any(|(_, x)| root.cmp(x).is_eq())
}

/// How many slots hold a root.
pub(crate) fn holders(slots: &BTreeMap<Place, Digest>, root: Digest) -> usize
    ensures { result ≡ S.holders slots.now.entries root }
{
    slots.iter().filter(|(_, x)| root.cmp(x).is_eq()).count()
}

/// The blob at a root that is present.
pub(crate) fn present(
    map: &BTreeMap<Digest, Blob>,
    leaving: &BTreeSet<Digest>,
    queue: &[Digest],
    root: Digest,
) -> Option<Blob>
    ensures { result
        ≡ cond (S.among leaving.now.keys root || S.among queue.now root) None
        (S.find map.now.entries root) }
{
    if is_unlinked(leaving, queue, root) {
        None
    } else {
        map.get(&root).copied()
    }
}

/// How many roots are present.
pub(crate) fn count_present(
    map: &BTreeMap<Digest, Blob>,
    leaving: &BTreeSet<Digest>,
    queue: &[Digest],
) -> usize
    ensures { result
        ≡ length (filter (λ e. not (S.among leaving.now.keys e.0 || S.among queue.now e.0))
        map.now.entries) }
{
    map.iter()
        .filter(|(root, _)| !is_unlinked(leaving, queue, **root))
        .count()
}

/// Whether neither has a root.
pub(crate) fn is_nothing(queue: &[Digest], leaving: &BTreeSet<Digest>) -> bool
    ensures { result ≡ is_empty (queue.now ++ leaving.now.keys) }
{
    queue.is_empty() && leaving.is_empty()
}
