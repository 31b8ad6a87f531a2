//! The log of a history: its changes, and how long it was after each event.

ghost use Rattle.std.specs.Prelude.{◌≡◌, IfOk, map};
ghost use Rattle.std.specs.List.Sorted.{IsStrictlySortedBy};
ghost use Rattle.std.specs.Map.{keys_of};
ghost use Rattle.spec_core.specs.History.{opening_map, log_of};
ghost use Rattle.spec_core.specs.Synced.{log_lengths};
ghost use Rattle.spec_tree.specs.Order.{digest_cmp};

use crate::machine::Machine;
use bv_model::History;
use spec_core::MapChange;
use std::alloc::{AllocError, Global};

/// The log of a history.
#[derive(Drop)]
pub struct Logged {
    /// Its publications and purges.
    pub changes: Vec<MapChange>,
    /// How many there were after each event.
    pub lengths: Vec<u64>,
}

/// The log of a history, whose opening is in the order of the roots' bytes.
pub fn logged_of(alloc: Global, h: &History) -> Result<Logged, AllocError>
    requires { IsStrictlySortedBy digest_cmp (keys_of (opening_map h.now.history)) }
    ensures changes { IfOk result (λ logged. logged.changes.items ≡ log_of h.now.history) }
    ensures lengths { IfOk result (λ logged.
        logged.lengths.items ≡ map (λ e. e.1) (log_lengths h.now.history)) }
{
    let mut core = Machine::mounted(alloc, h, 0)?;
    let mut lengths = Vec::new(alloc);
    for event in h.events() {
        core.change(event.who, event.act, event.reply)?;
        lengths.push(core.log.len() as u64)?;
    }
    Ok(Logged {
        changes: core.log,
        lengths,
    })
}
