//! The room that a history leaves, found without memory: by going over its events again.

ghost use Rattle.std.specs.Prelude.{◌≡◌, ℕ, ◌≤◌, ◌<◌, ◌+◌, ◌*◌, ◌-◌, ◌^◌, ◌==◌, cond, length};
ghost use Rattle.std.specs.List.{sum_by};
ghost use Rattle.std.specs.Map.{values_of};
ghost use Rattle.spec_core.specs.History.{Legal, setting_of, opening_map, room};
ghost use Rattle.bv_model.specs.Rescan as C;
ghost use Rattle.spec_core.specs.Room as R;
ghost use Rattle.spec_core.specs.State as S;
ghost use Rattle.bv_model.specs.Taking as T;

use crate::adding::{AddEffect, adding_of};
use crate::deed::{deed_of, fails};
use crate::history::History;
use crate::rescan::{Standing, held_after, standing_for};
use bv_merkle::blocks_needed_of;
use spec_core::{CoreEvent, Deed};
use spec_tree::{Blob, Digest};

/// What is known of a root: the blob of its last add, or that of the opening before any add.
#[derive(Clone, Copy)]
pub(crate) struct Known {
    pub(crate) blob: Blob,
    /// Whether the add is under way.
    pub(crate) adding: bool,
}

/// Numbers of blocks.
#[derive(Clone, Copy)]
pub(crate) struct Taken {
    /// By blobs of the map, by adds under way, and by purges that aren't durable.
    pub(crate) all: u128,
    /// By these purges.
    pub(crate) purged: u128,
    /// By the blobs that are queued.
    pub(crate) queued: u128,
    /// By the blobs that leave.
    pub(crate) leaving: u128,
    /// By purges that were logged as the device failed, of blobs that stay in the map.
    pub(crate) again: u128,
}

/// A blob of no bytes, for a root that no blob ever had.
const NO_BLOB: Blob = Blob {
    size: 0,
    version: 1,
};

/// The blob that the opening map has at a root.
fn opening_blob(h: &History, root: Digest) -> Option<Blob>
    ensures { result ≡ S.find (opening_map h.now.history) root }
{
    let opening = h.opening();
    for i in 0..opening.len() {
        let (other, size, version) = opening[i];
        if root.cmp(&other).is_eq() {
            return Some(Blob { size, version });
        }
    }
    None
}

/// The blocks of the opening map.
fn opening_blocks(h: &History) -> u128
    ensures value { result ≡ sum_by R.blob_need (values_of (opening_map h.now.history)) }
    ensures bound { result ≤ 2 ^ 63 * (2 ^ 64 - 1) }
{
    let opening = h.opening();
    let mut all = 0;
    for i in 0..opening.len() {
        let (_, size, version) = opening[i];
        all += u128::from(blocks_needed_of(version, size));
    }
    all
}

/// What is known of a root after an event that does this to the adds.
fn known_next(root: Digest, was: Known, version: u32, adding: AddEffect) -> Known
    ensures { result ≡ T.known_next root was version adding }
{
    match adding {
        AddEffect::Begins { root: x, size } => {
            if root.cmp(&x).is_eq() {
                Known {
                    blob: Blob { size, version },
                    adding: true,
                }
            } else {
                was
            }
        }
        AddEffect::Ends { root: x } | AddEffect::Publishes { root: x } => {
            if root.cmp(&x).is_eq() {
                Known {
                    adding: false,
                    ..was
                }
            } else {
                was
            }
        }
        AddEffect::Nothing => was,
    }
}

/// What is known of a root after the first `count` events.
fn known_after(h: &History, count: usize, root: Digest) -> Known
    requires { count ≤ length h.now.history.events }
    ensures { C.After h.now.history count (λ s. T.Knows (setting_of h.now.history) s root result) }
{
    let version = h.setting().version;
    let mut known = Known {
        blob: opening_blob(h, root).unwrap_or(NO_BLOB),
        adding: false,
    };
    for i in 0..count {
        known = known_next(root, known, version, adding_of(&h.events()[i]));
    }
    known
}

/// The blocks of a root's add, or none, after the first `count` events.
fn add_need(h: &History, count: usize, root: Digest) -> u64
    requires { count ≤ length h.now.history.events }
    ensures { C.After h.now.history count (λ s. result ≡ T.add_need (setting_of h.now.history) s root) }
{
    let known = known_after(h, count, root);
    if known.adding {
        blocks_needed_of(h.setting().version, known.blob.size)
    } else {
        0
    }
}

/// The blocks of a root's blob in the map, if it has one, after the first `count` events.
fn blob_need(h: &History, count: usize, root: Digest) -> u64
    requires { count ≤ length h.now.history.events }
    ensures { C.After h.now.history count (λ s. T.NeedsAt s root result) }
{
    let known = known_after(h, count, root);
    blocks_needed_of(known.blob.version, known.blob.size)
}

/// The blocks of the blob that a deed unlinks, or closes a place of.
fn deed_need(h: &History, count: usize, deed: Deed) -> u64
    requires { count ≤ length h.now.history.events }
    ensures { C.After h.now.history count (λ s. T.NeedsFor s deed result) }
{
    match deed {
        Deed::Closes { place } => match held_after(h, count, place) {
            Some(root) => blob_need(h, count, root),
            None => 0,
        },
        Deed::Unlinks { root } => blob_need(h, count, root),
        _ => 0,
    }
}

/// The blocks that an event is about: of the add that it begins or ends, or of the blob that it
/// unlinks or closes a slot of.
fn event_need(h: &History, count: usize, event: &CoreEvent) -> u64
    requires { count ≤ length h.now.history.events }
    ensures { C.After h.now.history count (λ s.
        T.NeedsOf (setting_of h.now.history) s event.now.who event.now.act event.now.reply result) }
{
    match adding_of(event) {
        AddEffect::Begins { size, .. } => blocks_needed_of(h.setting().version, size),
        AddEffect::Ends { root } => add_need(h, count, root),
        AddEffect::Publishes { .. } | AddEffect::Nothing => deed_need(h, count, deed_of(event)),
    }
}

impl Taken {
    /// The blocks once all purges are durable.
    fn all_freed(self) -> Taken
        requires { T.in_all self < 2 ^ 128 }
        ensures { result ≡ T.all_freed self }
    {
        Taken {
            all: self.all.saturating_sub(self.purged + self.queued),
            purged: 0,
            queued: 0,
            ..self
        }
    }

    /// The blocks once every place is emptied.
    fn all_let_go(self) -> Taken
        requires { T.in_all self < 2 ^ 128 }
        ensures { result ≡ T.all_let_go self }
    {
        Taken {
            queued: self.queued + self.leaving,
            leaving: 0,
            ..self
        }
    }

    /// The blocks once a leaving blob of so many is queued.
    fn one_let_go(self, need: u128) -> Taken
        requires { T.in_all self + need < 2 ^ 128 }
        ensures { result
            ≡ record self { leaving = self.leaving - need; queued = self.queued + need } }
    {
        Taken {
            leaving: self.leaving.saturating_sub(need),
            queued: self.queued + need,
            ..self
        }
    }

    /// The blocks once a blob of so many is unlinked, whose root stood so.
    fn one_unlinked(self, root: Standing, need: u128) -> Taken
        requires { T.in_all self + need < 2 ^ 128 }
        ensures { result ≡ cond (root.holders == 0)
            (record self { queued = self.queued + need })
            (record self { leaving = self.leaving + need }) }
    {
        if root.holders == 0 {
            Taken {
                queued: self.queued + need,
                ..self
            }
        } else {
            Taken {
                leaving: self.leaving + need,
                ..self
            }
        }
    }

    /// The blocks after a deed, before which the root that it closes or unlinks stood so, and the
    /// root's blob had `need` blocks.
    fn by_deed(self, root: Standing, need: u64, deed: Deed) -> Taken
        requires { T.in_all self + need < 2 ^ 128 }
        ensures step { result ≡ T.by_deed self root need deed }
        ensures bound { T.in_all result ≤ T.in_all self + need }
    {
        match deed {
            Deed::Closes { .. } => {
                if root.goes() {
                    self.one_let_go(u128::from(need))
                } else {
                    self
                }
            }
            Deed::Unlinks { .. } => self.one_unlinked(root, u128::from(need)),
            Deed::Publishes { .. } => Taken {
                purged: self.purged + self.queued,
                queued: 0,
                ..self
            },
            Deed::Purges => self.all_freed(),
            Deed::Empties { purges: true } => self.all_let_go().all_freed(),
            Deed::Empties { purges: false } => self.all_let_go(),
            Deed::Nothing | Deed::Opens { .. } => self,
        }
    }

    /// The blocks after what an event does to the adds, or else by its deed.
    fn by_adding(self, root: Standing, need: u64, adding: AddEffect, deed: Deed) -> Taken
        requires { T.in_all self + need < 2 ^ 128 }
        ensures step { result ≡ T.by_adding self root need adding deed }
        ensures bound { T.in_all result ≤ T.in_all self + need }
    {
        match adding {
            AddEffect::Begins { .. } => Taken {
                all: self.all + u128::from(need),
                ..self
            },
            AddEffect::Ends { .. } => Taken {
                all: self.all.saturating_sub(u128::from(need)),
                ..self
            },
            AddEffect::Publishes { .. } | AddEffect::Nothing => self.by_deed(root, need, deed),
        }
    }

    /// The blocks after an event, before which the root that it closes or unlinks stood so.
    fn next(self, root: Standing, need: u64, event: &CoreEvent) -> Taken
        requires { T.in_all self + need < 2 ^ 128 }
        ensures step { result
            ≡ T.taken_next self root need event.now.who event.now.act event.now.reply }
        ensures bound { T.in_all result ≤ T.in_all self + need }
    {
        let after = self.by_adding(root, need, adding_of(event), deed_of(event));
        if fails(event) {
            Taken {
                again: after.queued,
                ..after
            }
        } else {
            after
        }
    }

    /// What is left of so many blocks.
    fn left_of(self, blocks: u64) -> u64
        ensures { result ≡ blocks - 1 - self.all - self.again }
    {
        let left = u128::from(blocks.saturating_sub(1));
        left.saturating_sub(self.all).saturating_sub(self.again) as u64
    }
}

/// The room that a history leaves: the volume's blocks but block 0, less those of its blobs, of
/// the adds under way, and of the purges that aren't durable; 0 where these are more.
///
/// Takes no memory, and time that grows with the cube of the events, and with the events times the
/// opening list.
pub fn room_of(h: &History) -> u64
    requires legal { (next : ℕ) × Legal h.now.history next }
    ensures { result ≡ room h.now.history }
{
    let mut taken = Taken {
        all: opening_blocks(h),
        purged: 0,
        queued: 0,
        leaving: 0,
        again: 0,
    };
    for i in 0..h.events().len() {
        let event = h.events()[i];
        let root = standing_for(h, i, deed_of(&event));
        taken = taken.next(root, event_need(h, i, &event), &event);
    }
    taken.left_of(h.setting().blocks)
}
