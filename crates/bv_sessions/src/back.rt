//! What comes back of the sessions.
ghost use Rattle.std.specs.Prelude.{◌≡◌, ◌<◌, ◌++◌, ◌∷◌, [], IfOk, vec_len, vec_capacity};
ghost use Rattle.bv_sessions.specs.Backs.{IsEmptyFor, SameRoom};

use bv_session::Ended;
use bv_turn::{Keeps, Share};
use spec_session::SessionEnd;
use std::alloc::{AllocError, Global};

/// The shares that came back, in the order of their sessions, and how each session ended.
#[derive(Drop)]
pub(crate) struct Back<V: Keeps> {
    pub(crate) shares: Vec<Share<V>>,
    pub(crate) ends: Vec<SessionEnd>,
}

/// Room for so many sessions, none of which came back yet.
pub(crate) fn room_for<V: Keeps>(alloc: Global, count: usize) -> Result<Back<V>, AllocError>
    ensures { IfOk result (IsEmptyFor count) }
{
    Ok(Back {
        shares: Vec::with_capacity(alloc, count)?,
        ends: Vec::with_capacity(alloc, count)?,
    })
}

/// A share and an end more, behind the others.
pub(crate) fn with<V: Keeps>(back: Back<V>, ended: Ended<V>) -> Back<V>
    requires shares { vec_len back.shares < vec_capacity back.shares }
    requires ends { vec_len back.ends < vec_capacity back.ends }
    ensures shares { result.shares.items ≡ back.shares.items ++ ended.share ∷ [] }
    ensures ends { result.ends.items ≡ back.ends.items ++ ended.end ∷ [] }
    ensures room { SameRoom back result }
{
    let Back {
        mut shares,
        mut ends,
    } = back;
    shares.push_reserved(ended.share);
    ends.push_reserved(ended.end);
    Back { shares, ends }
}
