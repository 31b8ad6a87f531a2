//! The script that a command is to run.
ghost use Rattle.std.specs.Prelude.{◌≡◌, IfOk, IfErr};
ghost use Rattle.spec_script.specs.Workload.{workload_of};
ghost use Rattle.bv_serve.specs.Runs.{change};
ghost use Rattle.bv_run.specs.Asked.{IsAsked, IsRead, IsUnasked, IsUnread};
ghost use Rattle.bv_run.specs.Words.{CanBeWritten};

use crate::Form;
use bv_gen::workload;
use bv_io::{Source, read_all};
use bv_script::{Script, parse};
use bv_serve::Refusal;
use std::alloc::Global;

/// The most bytes of a script.
const LIMIT: u64 = 1_048_576;

/// Reads the script of the input.
fn read_script<S: Source>(alloc: Global, input: &mut S) -> Result<Script, Refusal>
    ensures ok { IfOk result
        (IsRead (change (S.seen input.old) (S.seen input.new))) }
    ensures err { IfErr result
        (λ refusal. IsUnread refusal (change (S.seen input.old) (S.seen input.new))) }
{
    let bytes = match read_all(alloc, input, LIMIT) {
        Ok(bytes) => bytes,
        Err(fault) => return Err(Refusal::from(fault)),
    };
    match parse(alloc, &bytes) {
        Ok(script) => Ok(script),
        Err(fault) => Err(Refusal::from(fault)),
    }
}

/// The demonstration's script.
fn demo_script(alloc: Global, rounds: u64) -> Result<Script, Refusal>
    requires { CanBeWritten (Form.Demo rounds) }
    ensures ok { IfOk result (λ script. script ≡ workload_of rounds) }
    ensures err { IfErr result (λ refusal. refusal ≡ Refusal.NoMemory) }
{
    match workload(alloc, rounds) {
        Ok(script) => Ok(script),
        Err(_) => Err(Refusal::NoMemory),
    }
}

/// The script that the command is to run: that of the input, or the demonstration's.
pub(crate) fn asked_script<S: Source>(
    alloc: Global,
    form: Form,
    input: &mut S,
) -> Result<Script, Refusal>
    requires { CanBeWritten form }
    ensures ok { IfOk result
        (IsAsked form (change (S.seen input.old) (S.seen input.new))) }
    ensures err { IfErr result
        (λ refusal. IsUnasked form refusal (change (S.seen input.old) (S.seen input.new))) }
{
    match form {
        Form::Demo(rounds) => demo_script(alloc, rounds),
        _ => read_script(alloc, input),
    }
}
