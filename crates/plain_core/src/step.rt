//! Whether an event is a step of the core, and the state after it.

ghost use Rattle.std.specs.Prelude.{◌≡◌, ℕ, ◌+◌, ◌<◌, ◌≤◌, ◌^◌, IfOk, length};
ghost use Rattle.plain_core.specs.Core.{StepsOrStays};

use crate::choosing::is_chosen;
use crate::machine::Machine;
use spec_core::CoreEvent;
use std::alloc::AllocError;

/// Whether an event is a Step. If it is, the core moves to the state after it, else it stays.
///
/// After want of memory the core may have a part of the change.
pub fn step_of(core: &mut Machine, event: &CoreEvent) -> Result<bool, AllocError>
    requires { core.old.state.next < 2 ^ 63 }
    ensures step { IfOk result (λ is_step. StepsOrStays core.old core.new event.now is_step) }
{
    if !is_chosen(core.choice(event.who, event.act), event.reply) {
        return Ok(false);
    }
    core.change(event.who, event.act, event.reply)?;
    Ok(true)
}
