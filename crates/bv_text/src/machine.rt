//! The core, run in memory: plain, and slower than the volume.

ghost use Rattle.std.specs.Prelude.{◌≡◌, [], IfOk};
ghost use Rattle.std.specs.List.Sorted.{IsStrictlySortedBy};
ghost use Rattle.std.specs.Map.{keys_of};
ghost use Rattle.spec_core.specs.History.{first_state, last_state, opening_map, setting_of};
ghost use Rattle.spec_session.specs.Told.{present_blobs};
ghost use Rattle.spec_tree.specs.Order.{digest_cmp};

use crate::lookups::is_unlinked;
use bv_model::History;
use spec_core::{MapChange, Place, Setting};
use spec_tree::{Blob, Digest};
use std::alloc::{AllocError, Global};
use std::collections::{BTreeMap, BTreeSet};
use std::marker::Model;

/// The state of the core, with the setting of its mount, as events that came lead to it.
#[derive(Drop)]
pub struct Machine {
    pub(crate) setting: Setting,
    pub(crate) map: BTreeMap<Digest, Blob>,
    pub(crate) log: Vec<MapChange>,
    pub(crate) durable: u64,
    pub(crate) slots: BTreeMap<Place, Digest>,
    pub(crate) leaving: BTreeSet<Digest>,
    pub(crate) queue: Vec<Digest>,
    pub(crate) adds: BTreeMap<Digest, u64>,
    pub(crate) stopped: Option<u64>,
    pub(crate) next: u64,
}

impl Model for Machine {
    ghost use Rattle.bv_text.specs.Core.{Core};

    ghost Value = { Core };

    ghost use Rattle.bv_text.specs.Tables.{core_of};

    ghost view = { core_of };
}

/// The opening map of a history, whose opening is in the order of the roots' bytes.
pub fn opening_of(alloc: Global, h: &History) -> Result<BTreeMap<Digest, Blob>, AllocError>
    requires { IsStrictlySortedBy digest_cmp (keys_of (opening_map h.now.history)) }
    ensures { IfOk result (λ map. map.entries ≡ opening_map h.now.history) }
{
    let mut map = BTreeMap::new(alloc);
    for (root, size, version) in h.opening() {
        map.insert(
            *root,
            Blob {
                size: *size,
                version: *version,
            },
        )?;
    }
    Ok(map)
}

impl Machine {
    /// The core as the mount of a history began, whose opening is in the order of the roots' bytes;
    /// `next` is the number of its first entry.
    pub fn mounted(alloc: Global, h: &History, next: u64) -> Result<Machine, AllocError>
        requires { IsStrictlySortedBy digest_cmp (keys_of (opening_map h.now.history)) }
        ensures setting { IfOk result (λ core. core.setting ≡ setting_of h.now.history) }
        ensures state { IfOk result (λ core. core.state ≡ first_state (opening_map h.now.history) next) }
    {
        let map = opening_of(alloc, h)?;
        Ok(Machine {
            setting: h.setting(),
            map,
            log: Vec::new(alloc),
            durable: 0,
            slots: BTreeMap::new(alloc),
            leaving: BTreeSet::new(alloc),
            queue: Vec::new(alloc),
            adds: BTreeMap::new(alloc),
            stopped: None,
            next,
        })
    }

    /// The changes of the log, in order.
    pub fn changes(&self) -> &[MapChange]
        ensures { result.now ≡ self.now.state.log }
    {
        self.log.as_slice()
    }

    /// The blobs that are present, in the order of their roots, with their sizes.
    pub fn present_blobs(&self, alloc: Global) -> Result<Vec<(Digest, u64)>, AllocError>
        ensures { IfOk result (λ blobs. blobs.items ≡ present_blobs self.now.state) }
    {
        self.map
            .iter()
            .filter(|(root, _)| !is_unlinked(&self.leaving, &self.queue, **root))
            .map(|(root, blob)| (*root, blob.size))
            .collect(alloc)
    }
}

/// The core after all events of a history.
pub fn core_after(alloc: Global, history: &History) -> Result<Machine, AllocError>
    requires sorted { IsStrictlySortedBy digest_cmp (keys_of (opening_map history.now.history)) }
    ensures { IfOk result (λ core. core.state ≡ last_state history.now.history 0) }
{
    let mut core = Machine::mounted(alloc, history, 0)?;
    for event in history.events() {
        core.change(event.who, event.act, event.reply)?;
    }
    Ok(core)
}
