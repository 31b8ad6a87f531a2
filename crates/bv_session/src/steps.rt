//! One event in one holding of the lock: each function waits for the lock, makes one event, and
//! passes the lock on.
ghost use Rattle.std.specs.Prelude.{◌≡◌, ◌+◌, ◌<◌, ◌≤◌, true, false, [], Some, None, OnErr, IfOk, IfErr, IfSome, IsSomeAnd, length};
ghost use Rattle.spec_tree.specs.Tree.{need_of, windows_of};
ghost use Rattle.spec_core.specs.declared.act.Act.TheVariants.{Begin, Admit, Put, Settle, Retire, Open, Fetch, Close, Unlink, Sync, List as ListAll};
ghost use Rattle.spec_core.specs.declared.reply.Reply.TheVariants.{Granted, Admitted, Written, Published, Retired, Opened, Fetched, Reading, Closed, Unlinked, Synced, Listed};
ghost use Rattle.spec_session.specs.Own.{new_add, admitted_add, add_of, slot_holds};
ghost use Rattle.bv_claims.specs.Tokens.{IsGrantOf, IsClaimedOf, grant_need, claimed_gained, claimed_left};
ghost use Rattle.bv_turn.specs.Tokens.{list_of};
ghost use Rattle.bv_writer.specs.Blocks.{IsBlobOf};
ghost use Rattle.bv_session.specs.Events.{IfRefused, IsReadFault, IsRefusal, IfDone, IfRefuses, reply_by, reply_or, IsUnderWay, IsLook, put_by};
ghost use Rattle.bv_session.specs.Disk.{AreThere, IsOnDisk};
ghost use Rattle.bv_session.specs.Pages.{Brought, ReaderKnows};
ghost use Rattle.bv_session.specs.Written.{Writes, written};
ghost use Rattle.bv_pager.specs.Reading.{FitsIn};
ghost use Rattle.bv_session.specs.Sessions.{Gains, own, IsFor, BasisHas, Stays};

use crate::serves::{Answer, Outcome, Serves};
use bv_claims::{Claimed, Grant};
use bv_pager::Reader;
use bv_proof::{Block, RawWindow};
use bv_turn::{Share, Turn};
use spec_core::{Act, Who};
use spec_tree::Digest;
use std::alloc::{AllocError, Global};
use std::sync::Wait;

/// Puts an add under way. The session has no other.
pub fn begin<R: Wait, T: Serves>(
    rt: &R,
    turn: &Turn<T>,
    share: &mut Share<T>,
    who: Who,
    alloc: Global,
    root: Digest,
    size: u64,
) -> Result<Answer<(T::Begun, Grant)>, AllocError>
    requires ready { IsFor turn.now who share.old }
    requires need { BasisHas share.old (λ b. need_of b.geometry.version size ≤ 65535) }
    requires idle { add_of (own share.old) ≡ None }
    ensures stays { Stays turn.now share.old share.new }
    ensures ok { IfOk result (λ a. Gains who (Begin root size) (reply_by (λ x. Granted) a)
        (own share.old) (own share.new)) }
    ensures refused { IfOk result (λ a. IfRefused a IsRefusal) }
    ensures err { OnErr result (own share.new ≡ own share.old) }
    ensures done { IfOk result (λ a. IfDone a (λ x. (T.begun x.0 ≡ new_add root size)
        × BasisHas share.old (λ b. IsGrantOf b.claims x.1
        × (grant_need x.1 ≡ need_of b.geometry.version size)))) }
{
    let mut held = turn.hold(rt, share);
    let answer = held.value.begin(alloc, who, root, size);
    turn.pass(share, held);
    answer
}

/// Gives an add its blocks and nodes.
pub fn admit<R: Wait, T: Serves>(
    rt: &R,
    turn: &Turn<T>,
    share: &mut Share<T>,
    who: Who,
    alloc: Global,
    add: T::Begun,
    claimed: Claimed,
) -> Result<Answer<T::Admitted>, (T::Begun, Claimed)>
    requires ready { IsFor turn.now who share.old }
    requires add { IsUnderWay (T.begun add) false (own share.old) }
    requires claimed { BasisHas share.old (λ b. IsClaimedOf b.claims claimed
        × (length (claimed_gained claimed) + claimed_left claimed
        ≡ need_of b.geometry.version (T.begun add).size)) }
    ensures stays { Stays turn.now share.old share.new }
    ensures ok { IfOk result (λ a. Gains who (Admit (T.begun add).root) (reply_by (λ x. Admitted) a)
        (own share.old) (own share.new)) }
    ensures refused { IfOk result (λ a. IfRefused a IsRefusal) }
    ensures err { OnErr result (own share.new ≡ own share.old) }
    ensures done { IfOk result (λ a. IfDone a (λ x. T.admitted x ≡ admitted_add (T.begun add))) }
    ensures none { IfOk result (λ a. IfDone a (λ x. written (list_of share.new) ≡ [])) }
    ensures back { IfErr result (λ r. (T.begun r.0 ≡ T.begun add) × (r.1 ≡ claimed)) }
{
    let mut held = turn.hold(rt, share);
    let answer = held.value.admit(alloc, who, add, claimed);
    turn.pass(share, held);
    answer
}

/// Writes the add's next block.
pub fn put<R: Wait, T: Serves>(
    rt: &R,
    turn: &Turn<T>,
    share: &mut Share<T>,
    who: Who,
    alloc: Global,
    add: &mut T::Admitted,
    block: &Block,
) -> Result<Outcome, AllocError>
    requires ready { IsFor turn.now who share.old }
    requires add { IsUnderWay (T.admitted add.old) true (own share.old) }
    requires next { BasisHas share.old (λ b.
        (T.admitted add.old).puts < need_of b.geometry.version (T.admitted add.old).size) }
    ensures stays { Stays turn.now share.old share.new }
    ensures ok { IfOk result (λ a. Gains who (Put (T.admitted add.old).puts) (reply_or Written a)
        (own share.old) (own share.new)) }
    ensures refused { IfOk result (λ a. IfRefuses a IsRefusal) }
    ensures err { OnErr result (own share.new ≡ own share.old) }
    ensures add { IfOk result (λ a. T.admitted add.new ≡ put_by a (T.admitted add.old)) }
    ensures same { OnErr result (T.admitted add.new ≡ T.admitted add.old) }
    ensures wrote { BasisHas share.old (λ b. IfOk result (λ a. Writes b.told a block.now
        (list_of share.old) (list_of share.new))) }
{
    let mut held = turn.hold(rt, share);
    let answer = held.value.put(alloc, who, add, block);
    turn.pass(share, held);
    answer
}

/// Publishes an add whose blocks are all put.
pub fn settle<R: Wait, T: Serves>(
    rt: &R,
    turn: &Turn<T>,
    share: &mut Share<T>,
    who: Who,
    alloc: Global,
    add: T::Admitted,
) -> Result<Outcome, T::Admitted>
    requires ready { IsFor turn.now who share.old }
    requires add { IsUnderWay (T.admitted add) true (own share.old) }
    requires all { BasisHas share.old (λ b.
        (T.admitted add).puts ≡ need_of b.geometry.version (T.admitted add).size) }
    requires written { BasisHas share.old (λ b. IfSome b.told (λ d.
        IsBlobOf b.geometry.version (T.admitted add).root (T.admitted add).size
        (written (list_of share.old)))) }
    ensures stays { Stays turn.now share.old share.new }
    ensures ok { IfOk result (λ a. Gains who (Settle (T.admitted add).root) (reply_or Published a)
        (own share.old) (own share.new)) }
    ensures refused { IfOk result (λ a. IfRefuses a IsRefusal) }
    ensures err { OnErr result (own share.new ≡ own share.old) }
    ensures back { IfErr result (λ r. T.admitted r ≡ T.admitted add) }
{
    let mut held = turn.hold(rt, share);
    let answer = held.value.settle(alloc, who, add);
    turn.pass(share, held);
    answer
}

/// Ends an add that isn't admitted.
pub fn retire_begun<R: Wait, T: Serves>(
    rt: &R,
    turn: &Turn<T>,
    share: &mut Share<T>,
    who: Who,
    add: T::Begun,
    claimed: Claimed,
)
    requires ready { IsFor turn.now who share.old }
    requires add { IsUnderWay (T.begun add) false (own share.old) }
    requires claimed { BasisHas share.old (λ b. IsClaimedOf b.claims claimed
        × (length (claimed_gained claimed) + claimed_left claimed
        ≡ need_of b.geometry.version (T.begun add).size)) }
    ensures stays { Stays turn.now share.old share.new }
    ensures ok { Gains who (Retire (T.begun add).root) Retired (own share.old) (own share.new) }
{
    let mut held = turn.hold(rt, share);
    held.value.retire_begun(who, add, claimed);
    turn.pass(share, held);
}

/// Ends an add that is admitted.
pub fn retire<R: Wait, T: Serves>(
    rt: &R,
    turn: &Turn<T>,
    share: &mut Share<T>,
    who: Who,
    add: T::Admitted,
)
    requires ready { IsFor turn.now who share.old }
    requires add { IsUnderWay (T.admitted add) true (own share.old) }
    ensures stays { Stays turn.now share.old share.new }
    ensures ok { Gains who (Retire (T.admitted add).root) Retired (own share.old) (own share.new) }
{
    let mut held = turn.hold(rt, share);
    held.value.retire(who, add);
    turn.pass(share, held);
}

/// Has the slot hold a blob, and says its size, and its pages where they were kept.
pub fn open<R: Wait, T: Serves>(
    rt: &R,
    turn: &Turn<T>,
    share: &mut Share<T>,
    who: Who,
    alloc: Global,
    slot: u32,
    root: Digest,
) -> Result<Answer<(u64, Option<Reader>)>, AllocError>
    requires ready { IsFor turn.now who share.old }
    requires slot { slot < 64 }
    ensures stays { Stays turn.now share.old share.new }
    ensures ok { IfOk result (λ a. Gains who (Open slot root) (reply_by (λ x. Opened x.0) a)
        (own share.old) (own share.new)) }
    ensures refused { IfOk result (λ a. IfRefused a IsRefusal) }
    ensures err { OnErr result (own share.new ≡ own share.old) }
    ensures done { IfOk result (λ a. IfDone a (λ x. IfSome x.1 (λ p. (p.root ≡ root) × (p.size ≡ x.0)))) }
    ensures there { IfOk result (λ a. IfDone a (λ x. Brought slot share.old share.new
        (λ b e. IfSome x.1 (AreThere b e)))) }
{
    let mut held = turn.hold(rt, share);
    let answer = held.value.open(alloc, who, slot, root);
    turn.pass(share, held);
    answer
}

/// Empties the slot, whose pages may be kept.
pub fn close<R: Wait, T: Serves>(
    rt: &R,
    turn: &Turn<T>,
    share: &mut Share<T>,
    who: Who,
    alloc: Global,
    slot: u32,
    pages: Option<Reader>,
) -> Result<Outcome, AllocError>
    requires ready { IsFor turn.now who share.old }
    requires pages { IfSome pages (λ r. ReaderKnows slot share.old r) }
    ensures stays { Stays turn.now share.old share.new }
    ensures ok { IfOk result (λ a. Gains who (Close slot) (reply_or Closed a)
        (own share.old) (own share.new)) }
    ensures refused { IfOk result (λ a. IfRefuses a IsRefusal) }
    ensures err { OnErr result (own share.new ≡ own share.old) }
{
    let mut held = turn.hold(rt, share);
    let answer = held.value.close(alloc, who, slot, pages);
    turn.pass(share, held);
    answer
}

/// Begins a read or a scan of the slot's blob, and says its root and size.
pub fn look<R: Wait, T: Serves>(
    rt: &R,
    turn: &Turn<T>,
    share: &mut Share<T>,
    who: Who,
    alloc: Global,
    slot: u32,
    act: Act,
) -> Result<Answer<(Digest, u64)>, AllocError>
    requires ready { IsFor turn.now who share.old }
    requires act { IsLook act slot }
    ensures stays { Stays turn.now share.old share.new }
    ensures ok { IfOk result (λ a. Gains who (act) (reply_by (λ x. Reading) a)
        (own share.old) (own share.new)) }
    ensures refused { IfOk result (λ a. IfRefused a IsRefusal) }
    ensures err { OnErr result (own share.new ≡ own share.old) }
    ensures done { IfOk result (λ a. IfDone a (λ x. slot_holds slot (own share.old) ≡ Some x)) }
{
    let mut held = turn.hold(rt, share);
    let answer = held.value.look(alloc, who, slot, act);
    turn.pass(share, held);
    answer
}

/// Reads a window of the slot's blob.
pub fn fetch<R: Wait, T: Serves>(
    rt: &R,
    turn: &Turn<T>,
    share: &mut Share<T>,
    who: Who,
    alloc: Global,
    slot: u32,
    window: u64,
) -> Result<Answer<RawWindow>, AllocError>
    requires ready { IsFor turn.now who share.old }
    requires window { IsSomeAnd (slot_holds slot (own share.old))
        (λ blob. window < windows_of blob.1) }
    ensures stays { Stays turn.now share.old share.new }
    ensures ok { IfOk result (λ a. Gains who (Fetch slot window) (reply_by (λ x. Fetched) a)
        (own share.old) (own share.new)) }
    ensures refused { IfOk result (λ a. IfRefused a IsReadFault) }
    ensures err { OnErr result (own share.new ≡ own share.old) }
    ensures done { IfOk result (λ a. IfDone a (λ x.
        IfSome (slot_holds slot (own share.old))
        (λ blob. (x.window ≡ window) × FitsIn blob.1 x))) }
    ensures disk { IfOk result (λ a. IfDone a (λ x. Brought slot share.old share.new
        (λ b e. IfSome (slot_holds slot (own share.old)) (λ blob. IsOnDisk b blob e x)))) }
{
    let mut held = turn.hold(rt, share);
    let answer = held.value.fetch(alloc, who, slot, window);
    turn.pass(share, held);
    answer
}

/// Takes a blob away.
pub fn unlink<R: Wait, T: Serves>(
    rt: &R,
    turn: &Turn<T>,
    share: &mut Share<T>,
    who: Who,
    alloc: Global,
    root: Digest,
) -> Result<Outcome, AllocError>
    requires ready { IsFor turn.now who share.old }
    ensures stays { Stays turn.now share.old share.new }
    ensures ok { IfOk result (λ a. Gains who (Unlink root) (reply_or Unlinked a)
        (own share.old) (own share.new)) }
    ensures refused { IfOk result (λ a. IfRefuses a IsRefusal) }
    ensures err { OnErr result (own share.new ≡ own share.old) }
{
    let mut held = turn.hold(rt, share);
    let answer = held.value.unlink(alloc, who, root);
    turn.pass(share, held);
    answer
}

/// Makes all changes so far durable.
pub fn sync<R: Wait, T: Serves>(
    rt: &R,
    turn: &Turn<T>,
    share: &mut Share<T>,
    who: Who,
    alloc: Global,
) -> Result<Outcome, AllocError>
    requires ready { IsFor turn.now who share.old }
    ensures stays { Stays turn.now share.old share.new }
    ensures ok { IfOk result (λ a. Gains who Sync (reply_or Synced a)
        (own share.old) (own share.new)) }
    ensures refused { IfOk result (λ a. IfRefuses a IsRefusal) }
    ensures err { OnErr result (own share.new ≡ own share.old) }
{
    let mut held = turn.hold(rt, share);
    let answer = held.value.sync(alloc, who);
    turn.pass(share, held);
    answer
}

/// The blobs that are present, with their sizes.
pub fn list<R: Wait, T: Serves>(
    rt: &R,
    turn: &Turn<T>,
    share: &mut Share<T>,
    who: Who,
    alloc: Global,
) -> Result<Vec<(Digest, u64)>, AllocError>
    requires ready { IsFor turn.now who share.old }
    ensures stays { Stays turn.now share.old share.new }
    ensures ok { IfOk result (λ blobs. Gains who ListAll (Listed (length blobs.items))
        (own share.old) (own share.new)) }
    ensures err { OnErr result (own share.new ≡ own share.old) }
{
    let mut held = turn.hold(rt, share);
    let answer = held.value.list(alloc, who);
    turn.pass(share, held);
    answer
}
