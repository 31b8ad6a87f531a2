//! The slots that hold open blobs.

ghost use Rattle.std.specs.Prelude.{◌≡◌, [], None, IfNone, OnOk, OnErr};
ghost use Rattle.std.specs.BTreeMap.{insert_entry, is_at};
ghost use Rattle.std.specs.Map.{remove_entry};
ghost use Rattle.spec_core.specs.Order.{place_cmp};
ghost use Rattle.spec_core.specs.State as S;

use crate::holders::Holders;
use spec_core::Place;
use spec_tree::Digest;
use std::alloc::{AllocError, Global};
use std::collections::BTreeMap;
use std::marker::Model;

/// A finite map from places to the roots that they hold. Contracts see it as the list of its
/// entries, in the order of the places.
#[derive(Drop)]
pub struct Handles {
    slots: BTreeMap<Place, Digest>,
    holders: Holders,
}

impl Model for Handles {
    ghost use Rattle.std.specs.Prelude.{List};
    ghost use Rattle.spec_core.specs.declared.place.Place.{Place};
    ghost use Rattle.spec_tree.specs.declared.Digest.{Digest};

    ghost Value = { List (Place × Digest) };

    ghost use Rattle.bv_handles.specs.Kept.{slots_of, Kept};

    ghost view = { slots_of };

    ghost invariant = { Kept };
}

impl Handles {
    /// No slot holds a blob.
    pub fn new(alloc: Global) -> Handles
        ensures { result ≡ [] }
    {
        Handles {
            slots: BTreeMap::new(alloc),
            holders: Holders::new(alloc),
        }
    }

    /// Has an empty place hold a root. The memory is that of the allocator of `new`.
    pub fn put(&mut self, _alloc: Global, place: Place, root: Digest) -> Result<(), AllocError>
        requires { S.held self.old place ≡ None }
        ensures ok { OnOk result (self.new ≡ insert_entry place_cmp self.old place root) }
        ensures err { OnErr result (self.new ≡ self.old) }
    {
        match self.holders.add(root) {
            Err(_) => return Err(AllocError),
            Ok(()) => match self.slots.insert(place, root) {
                Ok(_) => return Ok(()),
                Err(_) => {
                    self.holders.remove(root);
                    return Err(AllocError);
                }
            },
        }
    }

    /// Empties a place, and answers the root that it held.
    pub fn take(&mut self, place: Place) -> Option<Digest>
        ensures root { result ≡ S.held self.old place }
        ensures slots { self.new ≡ remove_entry (is_at (place_cmp place)) self.old }
        ensures none { IfNone result (self.new ≡ self.old) }
    {
        match self.slots.remove(&place) {
            None => None,
            Some(root) => {
                self.holders.remove(root);
                Some(root)
            }
        }
    }

    /// The root that a place holds.
    pub fn get(&self, place: Place) -> Option<Digest>
        ensures { result ≡ S.held self.now place }
    {
        self.slots.get(&place).copied()
    }

    /// How many places hold a root.
    pub fn count(&self, root: Digest) -> u64
        ensures { result ≡ S.holders self.now root }
    {
        self.holders.count(root)
    }

    /// Whether some place holds a root.
    pub fn is_held(&self, root: Digest) -> bool
        ensures { result ≡ S.is_held self.now root }
    {
        self.holders.count(root) != 0
    }

    /// Empties every place.
    pub fn clear(&mut self)
        ensures { self.new ≡ [] }
    {
        self.slots.clear();
        self.holders.clear();
    }
}
