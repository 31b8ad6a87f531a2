//! The roots that two blobs have.
ghost use Rattle.std.specs.Prelude.{◌≡◌, ◌++◌, ◌∷◌, [], ◌+◌, ◌<◌, ◌^◌, IfOk, OnOk, unwrap_or};
ghost use Rattle.std.specs.BTreeMap.{insert_entry, is_at};
ghost use Rattle.std.specs.Map.{lookup};
ghost use Rattle.spec_tree.specs.Order.{digest_cmp};
ghost use Rattle.spec_meta.specs.Survey.{root_counts};
ghost use Rattle.bv_txn.specs.Surveys.{twice_in};

use crate::SurveyFault;
use bv_node::BlobRec;
use spec_tree::Digest;
use std::alloc::{AllocError, Global};
use std::collections::BTreeMap;

/// Counts a root once more.
fn count_root(counts: &mut BTreeMap<Digest, usize>, root: Digest) -> Result<(), AllocError>
    requires { unwrap_or (lookup (is_at (digest_cmp root)) counts.old.entries) 0 + 1 < 2 ^ 64 }
    ensures { OnOk result (counts.new.entries ≡ insert_entry digest_cmp counts.old.entries root
        (unwrap_or (lookup (is_at (digest_cmp root)) counts.old.entries) 0 + 1)) }
{
    let before = counts.get(&root).copied().unwrap_or(0);
    counts.insert(root, before + 1)?;
    Ok(())
}

/// How many of these blobs have each root.
fn count_roots(alloc: Global, blobs: &[BlobRec]) -> Result<BTreeMap<Digest, usize>, AllocError>
    ensures { IfOk result (λ counts. counts.entries ≡ root_counts blobs.now) }
{
    let mut counts = BTreeMap::new(alloc);
    let mut left = blobs.len();
    while left > 0 {
        left -= 1;
        count_root(&mut counts, blobs[left].root())?;
    }
    Ok(counts)
}

/// Adds the fault of a root that so many blobs have.
fn add_root(root: Digest, count: usize, faults: &mut Vec<SurveyFault>) -> Result<(), AllocError>
    ensures { OnOk result (faults.new.items
        ≡ faults.old.items ++ twice_in ((root, count) ∷ [])) }
{
    if count >= 2 {
        faults.push(SurveyFault::Twice { root })?;
    }
    Ok(())
}

/// Adds the faults of the roots that are counted twice.
fn add_roots(
    counts: &BTreeMap<Digest, usize>,
    faults: &mut Vec<SurveyFault>,
) -> Result<(), AllocError>
    ensures { OnOk result (faults.new.items ≡ faults.old.items ++ twice_in counts.now.entries) }
{
    for (root, count) in counts {
        add_root(*root, *count, faults)?;
    }
    Ok(())
}

/// Adds the faults of the roots that two of these blobs have.
pub(crate) fn add_twice(
    alloc: Global,
    blobs: &[BlobRec],
    faults: &mut Vec<SurveyFault>,
) -> Result<(), AllocError>
    ensures { OnOk result (faults.new.items
        ≡ faults.old.items ++ twice_in (root_counts blobs.now)) }
{
    let counts = count_roots(alloc, blobs)?;
    add_roots(&counts, faults)
}
