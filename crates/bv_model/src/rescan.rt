//! What the core has after a history's first events, found without memory: by going over them
//! again.

ghost use Rattle.std.specs.Prelude.{◌≡◌, ℕ, ◌≤◌, ◌<◌, ◌+◌, ◌^◌, ◌-◌, ◌==◌, ◌&&◌, cond, nat_le, length};
ghost use Rattle.spec_core.specs.History.{Legal};
ghost use Rattle.bv_model.specs.Rescan as C;
ghost use Rattle.spec_core.specs.State as S;
ghost use Rattle.spec_core.specs.Synced as Y;

use crate::deed::{deed_of, fails, published_by};
use crate::history::History;
use spec_core::{CoreEvent, Deed, Place, Reply};
use spec_tree::Digest;

/// How a root stands: how many slots hold it, and whether it leaves with the last of them.
#[derive(Clone, Copy)]
pub(crate) struct Standing {
    pub(crate) holders: u64,
    pub(crate) leaving: bool,
}

/// How long the log is, and how many roots are leaving and queued.
#[derive(Clone, Copy)]
pub(crate) struct Lengths {
    pub(crate) log: u64,
    pub(crate) leaving: u64,
    pub(crate) queue: u64,
}

/// A root that nothing holds.
const NOWHERE: Standing = Standing {
    holders: 0,
    leaving: false,
};

impl Standing {
    /// Whether the root leaves with a slot that is closed, the last that held it.
    pub(crate) fn goes(self) -> bool
        ensures { result ≡ C.goes_with self }
    {
        self.leaving && self.holders.saturating_sub(1) == 0
    }
}

/// What a place holds after a deed.
fn held_next(place: Place, was: Option<Digest>, deed: Deed) -> Option<Digest>
    ensures { result ≡ C.held_next place was deed }
{
    match deed {
        Deed::Opens { place: at, root } => {
            if place.cmp(&at).is_eq() {
                Some(root)
            } else {
                was
            }
        }
        Deed::Closes { place: at } => { if place.cmp(&at).is_eq() { None } else { was } }
        Deed::Empties { .. } => None,
        Deed::Nothing | Deed::Unlinks { .. } | Deed::Publishes { .. } | Deed::Purges => was,
    }
}

/// What a place holds after the first `count` events.
pub(crate) fn held_after(h: &History, count: usize, place: Place) -> Option<Digest>
    requires { count ≤ length h.now.history.events }
    ensures { C.After h.now.history count (λ s. result ≡ S.held s.slots place) }
{
    let events = h.events();
    let mut held = None;
    for i in 0..count {
        held = held_next(place, held, deed_of(&events[i]));
    }
    held
}

/// How a root stands that one slot holds no longer: with the last it goes.
fn less_one(was: Standing) -> Standing
    ensures { result ≡ C.less_one was }
{
    let holders = was.holders.saturating_sub(1);
    Standing {
        holders,
        leaving: was.leaving && holders != 0,
    }
}

/// Whether a place held this root.
fn is_root(root: Digest, held: Option<Digest>) -> bool
    ensures { result ≡ C.is_root root held }
{
    match held {
        Some(x) => root.cmp(&x).is_eq(),
        None => false,
    }
}

/// How a root stands after a deed, before which `held` was at the place that is closed.
fn standing_next(root: Digest, was: Standing, held: Option<Digest>, deed: Deed) -> Standing
    requires { was.holders + 1 < 2 ^ 64 }
    ensures step { result ≡ C.standing_next root was held deed }
    ensures bound { result.holders ≤ was.holders + 1 }
{
    match deed {
        Deed::Opens { root: x, .. } => {
            if root.cmp(&x).is_eq() {
                Standing {
                    holders: was.holders + 1,
                    ..was
                }
            } else {
                was
            }
        }
        Deed::Closes { .. } => {
            if is_root(root, held) {
                less_one(was)
            } else {
                was
            }
        }
        Deed::Unlinks { root: x } => {
            if root.cmp(&x).is_eq() {
                Standing {
                    leaving: was.leaving || was.holders != 0,
                    ..was
                }
            } else {
                was
            }
        }
        Deed::Empties { .. } => NOWHERE,
        Deed::Nothing | Deed::Publishes { .. } | Deed::Purges => was,
    }
}

/// What is held at the place that a deed closes, after the first `count` events.
fn closed_root(h: &History, count: usize, deed: Deed) -> Option<Digest>
    requires { count ≤ length h.now.history.events }
    ensures { C.After h.now.history count (λ s. result ≡ C.closed_root s deed) }
{
    match deed {
        Deed::Closes { place } => held_after(h, count, place),
        _ => None,
    }
}

/// How a root stands after the first `count` events.
fn standing_after(h: &History, count: usize, root: Digest) -> Standing
    requires { count ≤ length h.now.history.events }
    ensures { C.After h.now.history count (λ s. result ≡ C.standing_in s root) }
{
    let mut standing = NOWHERE;
    for i in 0..count {
        let deed = deed_of(&h.events()[i]);
        standing = standing_next(root, standing, closed_root(h, i, deed), deed);
    }
    standing
}

/// How the root stands that a deed unlinks, or closes a place of.
pub(crate) fn standing_for(h: &History, count: usize, deed: Deed) -> Standing
    requires { count ≤ length h.now.history.events }
    ensures { C.After h.now.history count (λ s. result ≡ C.standing_for s deed) }
{
    match deed {
        Deed::Closes { place } => match held_after(h, count, place) {
            Some(root) => standing_after(h, count, root),
            None => NOWHERE,
        },
        Deed::Unlinks { root } => standing_after(h, count, root),
        _ => NOWHERE,
    }
}

impl Lengths {
    /// How many there are once the queue is purged.
    fn all_purged(self) -> Lengths
        requires { self.log + self.queue < 2 ^ 64 }
        ensures { result ≡ C.all_purged self }
    {
        Lengths {
            log: self.log + self.queue,
            queue: 0,
            ..self
        }
    }

    /// How many there are once every place is emptied.
    fn all_let_go(self) -> Lengths
        requires { self.queue + self.leaving < 2 ^ 64 }
        ensures { result ≡ record self { leaving = 0; queue = self.queue + self.leaving } }
    {
        Lengths {
            leaving: 0,
            queue: self.queue + self.leaving,
            ..self
        }
    }

    /// How many there are once a leaving root is queued.
    fn one_let_go(self) -> Lengths
        requires { self.queue + 1 < 2 ^ 64 }
        ensures { result ≡ record self { leaving = self.leaving - 1; queue = self.queue + 1 } }
    {
        Lengths {
            leaving: self.leaving.saturating_sub(1),
            queue: self.queue + 1,
            ..self
        }
    }

    /// How many there are once a root that stood so is unlinked.
    fn one_unlinked(self, root: Standing) -> Lengths
        requires { C.in_all self + 1 < 2 ^ 64 }
        ensures { result ≡ cond (root.holders == 0)
            (record self { queue = self.queue + 1 }) (record self { leaving = self.leaving + 1 }) }
    {
        if root.holders == 0 {
            Lengths {
                queue: self.queue + 1,
                ..self
            }
        } else {
            Lengths {
                leaving: self.leaving + 1,
                ..self
            }
        }
    }

    /// How many there are after a deed, before which the root that it closes or unlinks stood so.
    fn next(self, root: Standing, deed: Deed) -> Lengths
        requires { C.in_all self + 1 < 2 ^ 64 }
        ensures step { result ≡ C.lengths_next self root deed }
        ensures bound { C.in_all result ≤ C.in_all self + 1 }
    {
        match deed {
            Deed::Closes { .. } => { if root.goes() { self.one_let_go() } else { self } }
            Deed::Unlinks { .. } => self.one_unlinked(root),
            Deed::Publishes { .. } => {
                let purged = self.all_purged();
                Lengths {
                    log: purged.log + 1,
                    ..purged
                }
            }
            Deed::Purges => self.all_purged(),
            Deed::Empties { purges: true } => self.all_let_go().all_purged(),
            Deed::Empties { purges: false } => self.all_let_go(),
            Deed::Nothing | Deed::Opens { .. } => self,
        }
    }
}

/// How long the log is after the first `count` events.
fn log_after(h: &History, count: usize) -> u64
    requires { count ≤ length h.now.history.events }
    ensures { C.After h.now.history count (λ s. result ≡ length s.log) }
{
    let events = h.events();
    let mut lengths = Lengths {
        log: 0,
        leaving: 0,
        queue: 0,
    };
    // what an entry logged that the device failed to write, after which nothing is logged
    let mut failed = 0;
    let mut log = 0;
    for i in 0..count {
        let event = events[i];
        let deed = deed_of(&event);
        lengths = lengths.next(standing_for(h, i, deed), deed);
        if fails(&event) {
            failed = lengths.queue + published_by(event.act);
        }
        log = lengths.log + failed;
    }
    log
}

/// Whether an event made all of the log durable, by so many calls of the device.
fn is_by(event: &CoreEvent, calls: u64) -> bool
    ensures { result ≡ (Y.tells_durable event.now.reply && nat_le event.now.calls calls) }
{
    matches!(event.reply, Reply::Synced | Reply::Unmounted) && event.calls <= calls
}

/// How much of the log is durable after so many writes and syncs of the device: how long it was
/// after the last sync or unmount that succeeded by then.
///
/// Takes no memory, and time that grows with the cube of the events.
pub fn synced_by(h: &History, calls: u64) -> u64
    requires legal { (next : ℕ) × Legal h.now.history next }
    ensures { result ≡ Y.synced_by h.now.history calls }
{
    let events = h.events();
    let mut count = 0;
    for i in 0..events.len() {
        if is_by(&events[i], calls) {
            count = i + 1;
        }
    }
    log_after(h, count)
}

/// Whether an event ended with at least so many calls of the device.
fn reaches(event: &CoreEvent, calls: u64) -> bool
    ensures { result ≡ nat_le calls event.now.calls }
{
    calls <= event.calls
}

/// How much of the log may be durable after so many writes and syncs of the device: how long it was
/// after the first event that ended with at least as many, or else after all.
///
/// Takes no memory, and time that grows with the cube of the events.
pub fn logged_by(h: &History, calls: u64) -> u64
    requires legal { (next : ℕ) × Legal h.now.history next }
    ensures { result ≡ Y.logged_by h.now.history calls }
{
    let events = h.events();
    for i in 0..events.len() {
        if reaches(&events[i], calls) {
            return log_after(h, i + 1);
        }
    }
    log_after(h, events.len())
}
