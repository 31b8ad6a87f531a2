//! What the events so far tell of a line.

ghost use Rattle.std.specs.Prelude.{◌≡◌, true, cond, not, OnOk, Some};
ghost use Rattle.spec_session.specs.Told.{is_retire, named_root, or_else, present_blobs};
ghost use Rattle.bv_text.specs.Rows.{Notes, blobs_in};

use crate::machine::Machine;
use spec_core::{Act, CoreEvent, Reply};
use spec_script::Digest;
use std::alloc::{AllocError, Global};

/// What the events so far tell of a line: the root that they name, the line's reply, and of a line
/// that lists what was present when it began.
#[derive(Drop)]
pub struct Row {
    pub session: u32,
    /// Whether the line lists.
    pub lists: bool,
    pub root: Option<Digest>,
    pub answer: Option<Reply>,
    pub listing: Option<Vec<(Digest, u64)>>,
}

/// The root that an act names on a line's behalf.
fn named_root(act: Act) -> Option<Digest>
    ensures { result ≡ named_root act }
{
    match act {
        Act::Begin { root, .. } => Some(root),
        Act::Open { root, .. } => Some(root),
        Act::Unlink { root } => Some(root),
        _ => None,
    }
}

/// Whether an act ends an add without a publication.
fn is_retire(act: Act) -> bool
    ensures { result ≡ is_retire act }
{
    match act {
        Act::Retire { .. } => true,
        _ => false,
    }
}

/// The root, one event of the line later.
fn root_after(root: Option<Digest>, act: Act) -> Option<Digest>
    ensures { result ≡ or_else (named_root act) root }
{
    match named_root(act) {
        Some(named) => Some(named),
        None => root,
    }
}

/// The reply, one event of the line later.
fn answer_after(answer: Option<Reply>, event: &CoreEvent) -> Option<Reply>
    ensures { result ≡ cond (not (is_retire event.now.act)) (Some event.now.reply) answer }
{
    if is_retire(event.act) {
        answer
    } else {
        Some(event.reply)
    }
}

impl Row {
    /// What is present as the line begins, where it lists.
    fn list(&mut self, alloc: Global, core: &Machine) -> Result<(), AllocError>
        ensures session { self.new.session ≡ self.old.session }
        ensures lists { self.new.lists ≡ self.old.lists }
        ensures root { self.new.root ≡ self.old.root }
        ensures answer { self.new.answer ≡ self.old.answer }
        ensures listing { OnOk result (self.old.lists ≡ true → blobs_in self.new
            ≡ or_else (blobs_in self.old) (Some (present_blobs core.now.state))) }
    {
        if !self.lists {
            return Ok(());
        }
        if self.listing.is_some() {
            return Ok(());
        }
        self.listing = Some(core.present_blobs(alloc)?);
        Ok(())
    }

    /// Notes an event, which is this line's where its session is: its line has the row's number. The
    /// core is as it was before the event.
    pub fn note(
        &mut self,
        alloc: Global,
        event: &CoreEvent,
        core: &Machine,
    ) -> Result<(), AllocError>
        ensures { OnOk result (Notes core.now.state event.now event.now.who.line self.old self.new) }
    {
        if self.session != event.who.session {
            return Ok(());
        }
        self.list(alloc, core)?;
        self.root = root_after(self.root, event.act);
        self.answer = answer_after(self.answer, event);
        Ok(())
    }
}
