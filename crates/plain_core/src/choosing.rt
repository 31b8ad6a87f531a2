//! Which replies may come in the core's state, and whether one does.

ghost use Rattle.std.specs.Prelude.{◌≡◌, ℕ, ◌++◌, ◌⊎◌, drop, IsTrue, ◌↔◌};
ghost use Rattle.spec_core.specs.Choice as C;
ghost use Rattle.spec_core.specs.Room as R;
ghost use Rattle.spec_core.specs.State as S;
ghost use Rattle.spec_core.specs.Step.{Chosen, IsNoNodes};

use crate::less::{less_adds, less_blob_nodes, less_blobs, less_other_nodes, less_purges};
use crate::lookups::{count_present, holders, is_nothing, is_unlinked, present};
use crate::machine::Machine;
use bv_merkle::blocks_needed_of;
use bv_model::worst_nodes;
use spec_core::{Act, Choice, MapChange, Place, Reply, Who};
use spec_tree::Digest;

/// The first number that no entry has: they go from 1 to 2^62 - 1.
const NUMBER_END: u64 = 1 << 62;

/// The reply that a write or sync failed earlier, or else the choice.
fn unless_stopped(stopped: Option<u64>, rest: Choice) -> Choice
    ensures { result ≡ C.unless_stopped stopped rest }
{
    match stopped {
        Some(fault) => Choice::Only(Reply::Stopped { fault }),
        None => rest,
    }
}

/// The reply that a slot holds nothing, or else the choice.
fn unless_empty(slot: Option<Digest>, rest: Choice) -> Choice
    ensures { result ≡ C.unless_empty slot rest }
{
    match slot {
        None => Choice::Only(Reply::BadSlot),
        Some(_) => rest,
    }
}

/// The changes past the first so many.
fn past(log: &[MapChange], count: u64) -> &[MapChange]
    ensures { result.now ≡ drop count log.now }
{
    if count < log.len() as u64 {
        &log[count as usize..]
    } else {
        &log[log.len()..]
    }
}

impl Machine {
    /// The blocks that nothing takes.
    pub fn room(&self) -> u64
        ensures { result ≡ R.room_in self.now.setting self.now.state }
    {
        let all = self.setting.blocks.saturating_sub(1);
        let less_map = less_blobs(all, &self.map);
        let less_adds = less_adds(less_map, self.setting.version, &self.adds);
        less_purges(less_adds, past(&self.log, self.durable))
    }

    /// The nodes that are free for the add of a root, whatever extents all others have.
    fn least_free(&self, root: Digest) -> u64
        ensures { result ≡ R.least_free self.now.setting self.now.state root }
    {
        let less_map = less_blob_nodes(self.setting.nodes, &self.map);
        less_other_nodes(less_map, self.setting.version, &self.adds, root)
    }

    fn begin_choice(&self, root: Digest, size: u64) -> Choice
        ensures { result ≡ C.begin_choice self.now.setting self.now.state root size }
    {
        if present(&self.map, &self.leaving, &self.queue, root).is_some() {
            return Choice::Only(Reply::Exists);
        }
        if is_unlinked(&self.leaving, &self.queue, root) {
            let handles = holders(&self.slots, root) as u64;
            return Choice::Only(Reply::Leaving { handles });
        }
        if self.adds.contains_key(&root) {
            return Choice::Only(Reply::InFlight);
        }
        let need = blocks_needed_of(self.setting.version, size);
        let room = self.room();
        if room < need {
            Choice::Only(Reply::NoSpace { need, room })
        } else {
            Choice::Only(Reply::Granted)
        }
    }

    fn admit_choice(&self, root: Digest, size: u64) -> Choice
        ensures { result ≡ C.admit_choice self.now.setting self.now.state root size }
    {
        Choice::Nodes {
            most: worst_nodes(self.setting.version, size),
            least: self.least_free(root),
        }
    }

    fn settle_choice(&self) -> Choice
        ensures { result ≡ C.settle_choice self.now.state }
    {
        if self.next == NUMBER_END {
            Choice::Only(Reply::NumberEnd)
        } else {
            Choice::Writes(Reply::Published)
        }
    }

    fn open_choice(&self, place: Place, root: Digest) -> Choice
        ensures { result
            ≡ C.open_choice (S.present self.now.state root) (S.held self.now.state.slots place) }
    {
        match present(&self.map, &self.leaving, &self.queue, root) {
            None => Choice::Only(Reply::NotFound),
            Some(blob) => {
                if self.slots.contains_key(&place) {
                    Choice::Only(Reply::SlotTaken)
                } else {
                    Choice::Only(Reply::Opened { size: blob.size })
                }
            }
        }
    }

    fn unlink_choice(&self, root: Digest) -> Choice
        ensures { result ≡ C.unlink_choice self.now.state root }
    {
        if present(&self.map, &self.leaving, &self.queue, root).is_some() {
            Choice::Only(Reply::Unlinked)
        } else {
            Choice::Only(Reply::NotFound)
        }
    }

    fn sync_choice(&self) -> Choice
        ensures { result ≡ C.sync_choice self.now.state self.now.state.queue Reply.Synced }
    {
        if !self.queue.is_empty() && self.next == NUMBER_END {
            Choice::Only(Reply::NumberEnd)
        } else {
            Choice::Writes(Reply::Synced)
        }
    }

    fn unmount_choice(&self) -> Choice
        ensures { result
            ≡ C.sync_choice self.now.state
            (self.now.state.queue ++ self.now.state.leaving) Reply.Unmounted }
    {
        if !self.purges_none() && self.next == NUMBER_END {
            Choice::Only(Reply::NumberEnd)
        } else {
            Choice::Writes(Reply::Unmounted)
        }
    }

    /// Whether an unmount has nothing to purge.
    fn purges_none(&self) -> bool
        ensures { result ≡ C.is_empty (self.now.state.queue ++ self.now.state.leaving) }
    {
        is_nothing(&self.queue, &self.leaving)
    }

    /// The size of an add that is under way.
    fn add_of(&self, root: Digest) -> Option<u64>
        ensures { result ≡ S.find self.now.state.adds root }
    {
        self.adds.get(&root).copied()
    }

    /// The replies that may come.
    pub fn choice(&self, who: Who, act: Act) -> Choice
        ensures { result ≡ C.choice self.now.setting self.now.state who act }
    {
        match act {
            Act::Begin { root, size } => unless_stopped(
                self.stopped,
                self.begin_choice(root, size),
            ),
            Act::Admit { root } => match self.add_of(root) {
                None => Choice::Never,
                Some(size) => unless_stopped(self.stopped, self.admit_choice(root, size)),
            },
            Act::Put { .. } => unless_stopped(self.stopped, Choice::Writes(Reply::Written)),
            Act::Settle { root } => match self.add_of(root) {
                None => Choice::Never,
                Some(_) => unless_stopped(self.stopped, self.settle_choice()),
            },
            Act::Retire { .. } => Choice::Only(Reply::Retired),
            Act::Open { slot, root } => self.open_choice(who.place(slot), root),
            Act::Fetch { slot, .. } => self.slot_choice(who, slot, Choice::Reads(Reply::Fetched)),
            Act::Read { slot, .. } => self.slot_choice(who, slot, Choice::Only(Reply::Reading)),
            Act::Scan { slot } => self.slot_choice(who, slot, Choice::Only(Reply::Reading)),
            Act::Close { slot } => self.slot_choice(who, slot, Choice::Only(Reply::Closed)),
            Act::Unlink { root } => unless_stopped(self.stopped, self.unlink_choice(root)),
            Act::Sync => unless_stopped(self.stopped, self.sync_choice()),
            Act::List => Choice::Only(Reply::Listed {
                count: count_present(&self.map, &self.leaving, &self.queue) as u64,
            }),
            Act::Unmount => {
                if self.adds.is_empty() {
                    unless_stopped(self.stopped, self.unmount_choice())
                } else {
                    Choice::Never
                }
            }
        }
    }

    fn slot_choice(&self, who: Who, slot: u32, rest: Choice) -> Choice
        ensures { result ≡ C.unless_empty (S.held self.now.state.slots (C.place_of who slot)) rest }
    {
        unless_empty(self.slots.get(&who.place(slot)).copied(), rest)
    }
}

/// Whether two replies are one. The derived `==` says the same, but not in one step of a proof.
fn is_same(a: Reply, b: Reply) -> bool
    ensures { IsTrue result ↔ (a ≡ b) }
{
    match a {
        Reply::Granted => matches!(b, Reply::Granted),
        Reply::Admitted => matches!(b, Reply::Admitted),
        Reply::Written => matches!(b, Reply::Written),
        Reply::Published => matches!(b, Reply::Published),
        Reply::Retired => matches!(b, Reply::Retired),
        Reply::Fetched => matches!(b, Reply::Fetched),
        Reply::Reading => matches!(b, Reply::Reading),
        Reply::Closed => matches!(b, Reply::Closed),
        Reply::Unlinked => matches!(b, Reply::Unlinked),
        Reply::Synced => matches!(b, Reply::Synced),
        Reply::Unmounted => matches!(b, Reply::Unmounted),
        Reply::Exists => matches!(b, Reply::Exists),
        Reply::InFlight => matches!(b, Reply::InFlight),
        Reply::NumberEnd => matches!(b, Reply::NumberEnd),
        Reply::NotFound => matches!(b, Reply::NotFound),
        Reply::SlotTaken => matches!(b, Reply::SlotTaken),
        Reply::BadSlot => matches!(b, Reply::BadSlot),
        Reply::Opened { size } => matches!(b, Reply::Opened { size: other } if other == size),
        Reply::Listed { count } => matches!(b, Reply::Listed { count: other } if other == count),
        Reply::Stopped { fault } => matches!(b, Reply::Stopped { fault: other } if other == fault),
        Reply::Leaving { handles } =>
            matches!(b, Reply::Leaving { handles: other } if other == handles),
        Reply::DeviceFault { fault } =>
            matches!(b, Reply::DeviceFault { fault: other } if other == fault),
        Reply::ReadFault { fault } =>
            matches!(b, Reply::ReadFault { fault: other } if other == fault),
        Reply::NoSpace { need, room } => {
            matches!(b, Reply::NoSpace { need: n, room: r } if n == need && r == room)
        }
        Reply::NoNodes { need, free } => {
            matches!(b, Reply::NoNodes { need: n, free: f } if n == need && f == free)
        }
    }
}

fn is_device_fault(reply: Reply) -> bool
    ensures { IsTrue result ↔ ((f : ℕ) × (reply ≡ Reply.DeviceFault f)) }
{
    matches!(reply, Reply::DeviceFault { .. })
}

fn is_read_fault(reply: Reply) -> bool
    ensures { IsTrue result ↔ ((f : ℕ) × (reply ≡ Reply.ReadFault f)) }
{
    matches!(reply, Reply::ReadFault { .. })
}

fn is_of_nodes(most: u64, least: u64, reply: Reply) -> bool
    ensures { IsTrue result ↔ ((reply ≡ Reply.Admitted) ⊎ IsNoNodes most least reply) }
{
    match reply {
        Reply::Admitted => true,
        Reply::NoNodes { need, free } => free < need && need <= most && least <= free,
        _ => false,
    }
}

/// Whether a choice has a reply.
pub fn is_chosen(choice: Choice, reply: Reply) -> bool
    ensures { IsTrue result ↔ Chosen choice reply }
{
    match choice {
        Choice::Only(only) => is_same(reply, only),
        Choice::Writes(done) => is_same(reply, done) || is_device_fault(reply),
        Choice::Reads(done) => is_same(reply, done) || is_read_fault(reply),
        Choice::Nodes { most, least } => is_of_nodes(most, least, reply),
        Choice::Never => false,
    }
}
