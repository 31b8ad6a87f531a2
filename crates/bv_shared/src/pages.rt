//! The pages that are kept of blobs that were closed.
ghost use Rattle.std.specs.Prelude.{◌≡◌, ◌⊎◌, IfSome, IsSomeAnd, Some};
ghost use Rattle.std.specs.Map.{lookup, remove_entry};
ghost use Rattle.bv_cache.specs.Kept.{is_root, kept_first};
ghost use Rattle.bv_shared.specs.KeptPages.{kept_after, last_settled};

use bv_cache::Kept;
use bv_pager::Reader;
use bv_store::Store;
use bv_volume::{UnlinkFault, Volume};
use spec_core::{Act, CoreEvent};
use spec_tree::Digest;

/// Drops the pages of a blob that was unlinked.
pub(crate) fn forget_unlinked(kept: &mut Kept, answer: &Result<(), UnlinkFault>, root: Digest)
    ensures { (kept.new ≡ kept.old) ⊎ (kept.new ≡ remove_entry (is_root root) kept.old) }
{
    if answer.is_ok() {
        kept.forget(root);
    }
}

/// Drops the pages of the blob that the last of these events settled.
pub(crate) fn forget_settled(kept: &mut Kept, events: &[CoreEvent])
    ensures { kept.new ≡ kept_after (last_settled events.now) kept.old }
{
    let Some(last) = events.last() else {
        return;
    };
    if let Act::Settle { root } = last.act {
        kept.forget(root);
    }
}

/// The pages that were kept of an open blob, where they are of its size.
pub(crate) fn pages_of(kept: &mut Kept, root: Digest, size: u64) -> Option<Reader>
    ensures pages { IfSome result (λ p. (p.root ≡ root) × (p.size ≡ size)
        × (lookup (is_root root) kept.old ≡ Some p)) }
    ensures kept { kept.new ≡ remove_entry (is_root root) kept.old }
{
    let pages = kept.reuse(root)?;
    if pages.size() == size {
        return Some(pages);
    }
    None
}

/// Keeps the pages of a slot that was closed, where its blob is present. Want of memory drops them.
pub(crate) fn keep_closed<S: Store>(kept: &mut Kept, volume: &Volume<'_, S>, pages: Option<Reader>)
    ensures { (kept.new ≡ kept.old)
        ⊎ IsSomeAnd pages (λ r. kept.new ≡ kept_first kept.old r.root r) }
{
    let Some(pages) = pages else {
        return;
    };
    let root = pages.root();
    if volume.present(root) {
        let _kept = kept.keep(root, pages);
    }
}
