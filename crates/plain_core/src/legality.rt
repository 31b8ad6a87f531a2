//! Whether a history is legal: its opening is in order, each event is a step of the core, and the
//! calls never fall.

ghost use Rattle.std.specs.Prelude.{◌≡◌, ◌↔◌, ◌≤◌, ◌^◌, IsTrue, IfOk};
ghost use Rattle.std.specs.List.Sorted.{IsStrictlySortedBy};
ghost use Rattle.std.specs.Map.{keys_of};
ghost use Rattle.spec_core.specs.History as H;
ghost use Rattle.spec_core.specs.Step.{Steps};
ghost use Rattle.spec_tree.specs.Order.{digest_cmp};

use crate::machine::Machine;
use crate::step::step_of;
use bv_model::History;
use spec_core::CoreEvent;
use std::alloc::{AllocError, Global};

/// Whether the opening is in the order of the roots' bytes, each root once.
fn is_opening_sorted(h: &History) -> bool
    ensures { IsTrue result ↔ IsStrictlySortedBy digest_cmp (keys_of (H.opening_map h.now.history)) }
{
    let opening = h.opening();
    for i in 1..opening.len() {
        if !opening[i - 1].0.cmp(&opening[i].0).is_lt() {
            return false;
        }
    }
    true
}

/// Whether each event has at least as many calls as the one before it.
fn never_falls(events: &[CoreEvent]) -> bool
    ensures { IsTrue result ↔ H.NeverFall 0 events.now }
{
    let mut calls = 0;
    for event in events {
        if event.calls < calls {
            return false;
        }
        calls = event.calls;
    }
    true
}

/// Whether these events are Steps one after another.
fn are_steps(core: &mut Machine, events: &[CoreEvent]) -> Result<bool, AllocError>
    requires { core.old.state.next ≤ 2 ^ 62 }
    ensures { IfOk result (λ yes.
        IsTrue yes ↔ Steps core.old.setting core.old.state events.now) }
{
    for event in events {
        if !step_of(core, event)? {
            return Ok(false);
        }
    }
    Ok(true)
}

/// Whether a history is legal, where `next` is the number of its first entry.
pub fn is_legal(alloc: Global, h: &History, next: u64) -> Result<bool, AllocError>
    requires { next ≤ 2 ^ 62 }
    ensures { IfOk result (λ yes. IsTrue yes ↔ H.Legal h.now.history next) }
{
    if !is_opening_sorted(h) || !never_falls(h.events()) {
        return Ok(false);
    }
    let mut core = Machine::mounted(alloc, h, next)?;
    are_steps(&mut core, h.events())
}
