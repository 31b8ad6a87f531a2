//! The blobs whose last block waits: eight of these are hashed side by side.
ghost use Rattle.std.specs.Prelude.{◌≡◌, ◌<◌, ◌≤◌, ◌++◌, ◌∷◌, [], length, take, map, IfOk, OnOk};
ghost use Rattle.sha2.specs.Sha256.{sha256};
ghost use Rattle.bv_lanes.specs.Messages.{bytes_of};
ghost use Rattle.bv_check.specs.Last.{AreFew, damaged_among, damaged_of, ending_root, last_bytes, unless_found};

use crate::data_hasher::Ending;
use crate::last_block::LastBlock;
use bv_lanes::{Message, digests};
use spec_tree::Digest;
use std::alloc::{AllocError, Global};

/// How many are hashed at once.
const LANES: usize = 8;

/// A blob whose bytes were read: its root is to be that of its last block.
#[derive(Drop)]
pub(crate) struct Waiting {
    pub(crate) root: Digest,
    pub(crate) last: LastBlock,
}

/// What is known of the blobs that were looked at.
#[derive(Drop)]
pub(crate) struct Looked {
    /// The roots of damaged ones, in their order.
    roots: Vec<Digest>,
    /// The last blobs, of which it isn't known yet.
    waiting: Vec<Waiting>,
}

impl Looked {
    /// No blob was looked at.
    pub(crate) fn new(alloc: Global) -> Looked
        ensures none { damaged_of result ≡ [] }
        ensures few { AreFew result }
    {
        Looked {
            roots: Vec::new(alloc),
            waiting: Vec::new(alloc),
        }
    }

    /// Adds a blob that is to have this root, and whose bytes end so.
    pub(crate) fn add(&mut self, root: Digest, ending: Ending) -> Result<(), AllocError>
        requires few { AreFew self.old }
        ensures few { OnOk result (AreFew self.new) }
        ensures more { OnOk result (damaged_of self.new
            ≡ damaged_of self.old ++ unless_found root (ending_root ending)) }
    {
        match ending {
            Ending::Last(last) => self.wait(Waiting { root, last }),
            Ending::Root(found) => {
                self.settle()?;
                add_unless(&mut self.roots, &root, &found)
            }
        }
    }

    /// Lets a blob wait.
    fn wait(&mut self, blob: Waiting) -> Result<(), AllocError>
        requires few { AreFew self.old }
        ensures few { OnOk result (AreFew self.new) }
        ensures more { OnOk result (damaged_of self.new
            ≡ damaged_of self.old ++ damaged_among (blob ∷ [])) }
    {
        if self.waiting.len() == LANES {
            self.settle()?;
        }
        self.waiting.push(blob)?;
        Ok(())
    }

    /// Hashes the last blocks of the blobs that wait.
    fn settle(&mut self) -> Result<(), AllocError>
        requires few { AreFew self.old }
        ensures none { OnOk result (self.new.waiting.items ≡ []) }
        ensures same { OnOk result (damaged_of self.new ≡ damaged_of self.old) }
    {
        if !self.waiting.is_empty() {
            add_damaged(&self.waiting, &mut self.roots)?;
            self.waiting.clear();
        }
        Ok(())
    }

    /// The roots of the damaged blobs.
    pub(crate) fn finish(mut self) -> Result<Vec<Digest>, AllocError>
        requires few { AreFew self }
        ensures { IfOk result (λ roots. roots.items ≡ damaged_of self) }
    {
        self.settle()?;
        Ok(self.roots)
    }
}

/// Adds the roots of the damaged ones among blobs that wait.
fn add_damaged(waiting: &[Waiting], roots: &mut Vec<Digest>) -> Result<(), AllocError>
    requires some { 0 < length waiting.now }
    requires few { length waiting.now ≤ 8 }
    ensures { OnOk result (roots.new.items ≡ roots.old.items ++ damaged_among waiting.now) }
{
    let found = last_digests(waiting);
    for i in 0..waiting.len() {
        add_unless(roots, &waiting[i].root, &Digest(found[i]))?;
    }
    Ok(())
}

/// Adds a root unless it was found.
fn add_unless(roots: &mut Vec<Digest>, root: &Digest, found: &Digest) -> Result<(), AllocError>
    ensures { OnOk result (roots.new.items ≡ roots.old.items ++ unless_found root.now found.now) }
{
    if found.cmp(root).is_eq() {
        return Ok(());
    }
    roots.push(*root)?;
    Ok(())
}

/// The digests of the last blocks of blobs that wait.
fn last_digests(waiting: &[Waiting]) -> [[u8; 32]; 8]
    requires some { 0 < length waiting.now }
    requires few { length waiting.now ≤ 8 }
    ensures { take (length waiting.now) result
        ≡ map (λ w. sha256 (last_bytes w.last)) waiting.now }
{
    let mut messages = [message(&waiting[0]); LANES];
    for (i, blob) in waiting.iter().enumerate() {
        messages[i] = message(blob);
    }
    digests(&messages[..waiting.len()])
}

/// What is hashed for a blob that waits.
fn message(blob: &Waiting) -> Message<'_>
    ensures { bytes_of result ≡ last_bytes blob.now.last }
{
    Message {
        prefix: blob.last.prefix,
        block: &blob.last.block,
    }
}
