//! What refuses a call of the volume, as the result of the line.

ghost use Rattle.std.specs.Prelude.{Some, Ok};
ghost use Rattle.bv_adder.specs.Steps.{RefusesBy, begin_refusal, put_refusal};

use bv_session::LineResult;
use bv_volume::{BeginFault, PutFault};
use std::alloc::AllocError;

/// The result of an add whose begin was refused.
pub(crate) fn begin_refused(fault: BeginFault) -> Result<LineResult, AllocError>
    ensures { RefusesBy (begin_refusal fault) result }
{
    match fault {
        BeginFault::Stopped { fault } => Ok(LineResult::Stopped { fault }),
        BeginFault::Exists => Ok(LineResult::Exists),
        BeginFault::Leaving { handles } => Ok(LineResult::Leaving { handles }),
        BeginFault::InFlight => Ok(LineResult::InFlight),
        BeginFault::NoSpace { need, room } => Ok(LineResult::NoSpace { need, room }),
        BeginFault::NoMemory => Err(AllocError),
    }
}

/// The result of an add of which a put was refused.
pub(crate) fn put_refused(fault: PutFault) -> LineResult
    ensures { RefusesBy (Some (put_refusal fault)) (Ok result) }
{
    match fault {
        PutFault::Stopped { fault } => LineResult::Stopped { fault },
        PutFault::DeviceFault { fault } => LineResult::DeviceFault { fault },
    }
}
