//! What a run prints, and its status.
ghost use Rattle.std.specs.Prelude.{◌≡◌, ◌↔◌, ◌⊎◌, IsTrue, IfOk, length};
ghost use Rattle.std.specs.List.{list_any};
ghost use Rattle.std.specs.List.Sorted.{IsStrictlySortedBy};
ghost use Rattle.std.specs.Map.{keys_of};
ghost use Rattle.spec_tree.specs.Order.{digest_cmp};
ghost use Rattle.spec_core.specs.History.{opening_map};
ghost use Rattle.spec_session.specs.Text.{TellsRoots};
ghost use Rattle.spec_headline.specs.Run.{MetFault, MetMismatch, run_of};
ghost use Rattle.bv_serve.specs.declared.refusal.Refusal.TheVariants as refusals;
ghost use Rattle.bv_serve.specs.Runs.{change};
ghost use Rattle.bv_run.specs.Reports.{EndsAs, ReportsRefusal, ReportsRun, has_mismatch, is_fault, is_mismatch, printed};

use crate::Form;
use bv_io::{Sink, give_all};
use bv_model::History;
use bv_script::Script;
use bv_serve::{Refusal, Status, refuse};
use bv_text::{summary, text};
use spec_core::{CoreEvent, Reply};
use spec_session::{LineResult, SessionEnd};
use std::alloc::{AllocError, Global};

/// Whether a reply says that the device failed.
fn is_fault(reply: Reply) -> bool
    ensures { result ≡ is_fault reply }
{
    match reply {
        Reply::DeviceFault { .. } => true,
        Reply::ReadFault { .. } => true,
        _ => false,
    }
}

/// Whether one of these events met a fault of the device.
fn has_fault(events: &[CoreEvent]) -> bool
    ensures { result ≡ list_any (λ e. is_fault e.reply) events.now }
{
    events.iter().any(|event| is_fault(event.reply))
}

/// Whether an event of a history met a fault of the device.
fn met_fault(history: &History) -> bool
    ensures { IsTrue result ↔ MetFault history.now.history }
{
    has_fault(history.events())
}

/// Whether a result is a mismatch.
fn is_mismatch(result_of_line: &LineResult) -> bool
    ensures { result ≡ is_mismatch result_of_line.now }
{
    match result_of_line {
        LineResult::Mismatch(_) => true,
        _ => false,
    }
}

/// Whether a line of a session answered a mismatch.
fn has_mismatch(end: &SessionEnd) -> bool
    ensures { result ≡ has_mismatch end.now }
{
    end.results.iter().any(is_mismatch)
}

/// Whether a line of one of the sessions answered a mismatch.
fn met_mismatch(ends: &[SessionEnd]) -> bool
    ensures { result ≡ list_any has_mismatch ends.now }
{
    ends.iter().any(has_mismatch)
}

/// The status of a run whose text was printed whole: a fault goes before a mismatch.
fn status_of(script: &Script, history: &History, ends: &[SessionEnd]) -> Status
    requires count { length ends.now ≡ 16 }
    ensures { EndsAs (run_of script.now history.now.history ends.now) result }
{
    if met_fault(history) {
        Status::Device
    } else if met_mismatch(ends) {
        Status::Damage
    } else {
        Status::Ok
    }
}

/// The text of a run, or of the demonstration its summary.
fn printed(
    alloc: Global,
    form: Form,
    script: &Script,
    history: &History,
    ends: &[SessionEnd],
) -> Result<Vec<u8>, AllocError>
    requires told { TellsRoots script.now history.now.history }
    requires sorted { IsStrictlySortedBy digest_cmp (keys_of (opening_map history.now.history)) }
    ensures { IfOk result (λ text. text.items
        ≡ printed form (run_of script.now history.now.history ends.now)) }
{
    match form {
        Form::Demo(rounds) => summary(alloc, rounds, script, history),
        _ => text(alloc, script, history, ends),
    }
}

/// Prints the text of a run.
pub(crate) fn report<K: Sink>(
    alloc: Global,
    form: Form,
    script: &Script,
    history: &History,
    ends: &[SessionEnd],
    out: &mut K,
) -> Status
    requires told { TellsRoots script.now history.now.history }
    requires sorted { IsStrictlySortedBy digest_cmp (keys_of (opening_map history.now.history)) }
    requires count { length ends.now ≡ 16 }
    ensures { ReportsRefusal refusals.NoMemory result (change (K.seen out.old) (K.seen out.new))
        ⊎ ReportsRun (printed form (run_of script.now history.now.history ends.now))
        (run_of script.now history.now.history ends.now) result
        (change (K.seen out.old) (K.seen out.new)) }
{
    let Ok(text) = printed(alloc, form, script, history, ends) else {
        return refuse(out, Refusal::NoMemory);
    };
    match give_all(out, &text) {
        Ok(()) => status_of(script, history, ends),
        Err(_) => Status::Sink,
    }
}
