//! How many slots hold each root.

ghost use Rattle.std.specs.Prelude.{◌≡◌, ◌+◌, ◌≤◌, cond, None, OnOk, OnErr};
ghost use Rattle.spec_tree.specs.declared.Digest.{Digest};
ghost use Rattle.spec_tree.specs.Order.{same_digest};
ghost use Rattle.spec_core.specs.State as S;
ghost use Rattle.bv_handles.specs.Counted.{Stands, counted};

use slab::Slab;
use spec_tree::Digest;
use std::alloc::{AllocError, Global};
use std::collections::BTreeMap;

/// A blob that slots hold.
#[derive(Drop)]
pub(crate) struct Open {
    pub(crate) root: Digest,
    /// How many slots hold it.
    pub(crate) slots: u64,
}

/// The open blobs, each under a key of its own.
#[derive(Drop)]
pub(crate) struct Holders {
    pub(crate) keys: BTreeMap<Digest, usize>,
    pub(crate) blobs: Slab<Open>,
}

impl Holders {
    /// No blob is open.
    pub(crate) fn new(alloc: Global) -> Holders
        ensures stands { Stands result }
        ensures none { (r : Digest) → counted result r ≡ 0 }
    {
        Holders {
            keys: BTreeMap::new(alloc),
            blobs: Slab::new(alloc),
        }
    }

    /// How many slots hold a root.
    pub(crate) fn count(&self, root: Digest) -> u64
        ensures { result ≡ counted self.now root }
    {
        match self.keys.get(&root) {
            None => 0,
            Some(key) => match self.blobs.get(*key) {
                None => 0,
                Some(blob) => blob.slots,
            },
        }
    }

    /// A slot more holds a root. On an `Err` all is as it was.
    pub(crate) fn add(&mut self, root: Digest) -> Result<(), AllocError>
        requires { Stands self.old }
        ensures stands { Stands self.new }
        ensures ok { OnOk result ((r : Digest)
            → counted self.new r ≡ counted self.old r + cond (same_digest r root) 1 0) }
        ensures err { OnErr result ((r : Digest) → counted self.new r ≡ counted self.old r) }
    {
        match self.keys.get(&root).copied() {
            None => self.add_first(root),
            Some(key) => {
                let slots = self.count(root);
                if slots == u64::MAX {
                    return Err(AllocError);
                }
                self.set(root, key, slots + 1);
                Ok(())
            }
        }
    }

    /// So many slots hold a root that has a key.
    fn set(&mut self, root: Digest, key: usize, slots: u64)
        requires stands { Stands self.old }
        requires has { S.find self.old.keys.entries root ≡ Some key }
        ensures stands { Stands self.new }
        ensures counted { (r : Digest)
            → counted self.new r ≡ cond (same_digest r root) slots (counted self.old r) }
    {
        self.blobs[key] = Open { root, slots };
    }

    /// A slot holds a root that none held.
    fn add_first(&mut self, root: Digest) -> Result<(), AllocError>
        requires stands { Stands self.old }
        requires absent { S.find self.old.keys.entries root ≡ None }
        ensures stands { Stands self.new }
        ensures ok { OnOk result ((r : Digest)
            → counted self.new r ≡ counted self.old r + cond (same_digest r root) 1 0) }
        ensures err { OnErr result ((r : Digest) → counted self.new r ≡ counted self.old r) }
    {
        match self.blobs.insert(Open { root, slots: 1 }) {
            Err(_) => return Err(AllocError),
            Ok(key) => match self.keys.insert(root, key) {
                Ok(_) => return Ok(()),
                Err(_) => {
                    self.blobs.try_remove(key);
                    return Err(AllocError);
                }
            },
        }
    }

    /// A slot less holds a root that some hold.
    pub(crate) fn remove(&mut self, root: Digest)
        requires stands { Stands self.old }
        requires held { 1 ≤ counted self.old root }
        ensures stands { Stands self.new }
        ensures counted { (r : Digest)
            → counted self.new r + cond (same_digest r root) 1 0 ≡ counted self.old r }
    {
        let slots = self.count(root);
        if let Some(key) = self.keys.get(&root).copied() {
            if slots > 1 {
                self.set(root, key, slots - 1);
            } else {
                self.keys.remove(&root);
                self.blobs.try_remove(key);
            }
        }
    }

    /// No blob is open any more.
    pub(crate) fn clear(&mut self)
        ensures stands { Stands self.new }
        ensures none { (r : Digest) → counted self.new r ≡ 0 }
    {
        self.keys.clear();
        self.blobs.clear();
    }
}
