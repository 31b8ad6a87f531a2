//! The blocks of purges are free once these are durable.

ghost use Rattle.std.specs.Prelude.{◌≡◌, ◌++◌, ℕ, None, Some};
ghost use Rattle.bv_claims.specs.Blocks.{IsPartOf};
ghost use Rattle.bv_volume.specs.Spaced.{Freed};

use bv_space::Space;

/// Frees the blocks of all purges, and these besides, unless a call failed.
pub(crate) fn free_purged(space: &mut Space, blocks: &[u64], failed: Option<u64>)
    requires { IsPartOf (space.old.gone ++ blocks.now) space.old.owned }
    ensures done { failed ≡ None → Freed space.old space.new blocks.now }
    ensures kept { (f : ℕ) → failed ≡ Some f → space.new ≡ space.old }
{
    if failed.is_none() {
        space.free_gone(blocks);
    }
}
