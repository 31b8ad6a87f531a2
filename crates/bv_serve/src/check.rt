//! The command `check`: everything that is wrong with a volume.
ghost use Rattle.std.specs.Prelude.{◌≡◌, ◌++◌, ◌+◌, ◌≤◌, IfOk, length};
ghost use Rattle.bv_check.specs.Checks.{findings};
ghost use Rattle.bv_serve.specs.Check.{RunsCheck, PrintsOrNot};
ghost use Rattle.bv_serve.specs.Lines.{clean_text, damage_text, damaged_line, fault_line, is_clean, report_text, number_line};
ghost use Rattle.bv_serve.specs.Runs.{Change, LeavesAlone, change};

use crate::fault_text::write_fault;
use crate::lines::{refuse, root_line, write_count};
use crate::{Line, Refusal, Status};
use bv_check::Report;
use bv_device::Device;
use bv_io::{Sink, give_all};
use bv_merkle::Digest;
use bv_mount::MountFault;
use std::alloc::{AllocError, Global};

/// Checks the volume on the device, and prints what is wrong with it.
pub(crate) fn check<D: Device, K: Sink>(alloc: Global, dev: &mut D, out: &mut K) -> Status
    ensures { (input : Change) → LeavesAlone input → RunsCheck result
        (D.seen dev.old) (D.seen dev.new)
        input (change (K.seen out.old) (K.seen out.new)) }
{
    match bv_check::check(alloc, dev) {
        Ok(report) => print_report(alloc, &report, out),
        Err(fault) => refuse(out, Refusal::from(MountFault::from(fault))),
    }
}

/// Prints a report.
fn print_report<K: Sink>(alloc: Global, report: &Report, out: &mut K) -> Status
    ensures { PrintsOrNot (findings report.now) result
        (change (K.seen out.old) (K.seen out.new)) }
{
    let Ok(text) = text_of(alloc, report) else {
        return refuse(out, Refusal::NoMemory);
    };
    match give_all(out, &text) {
        Ok(()) if is_clean(report) => Status::Ok,
        Ok(()) => Status::Damage,
        Err(_) => Status::Sink,
    }
}

/// Whether nothing is wrong.
fn is_clean(report: &Report) -> bool
    ensures { result ≡ is_clean (findings report.now) }
{
    report.faults.is_empty() && report.damaged.is_empty()
}

/// The text of a report.
fn text_of(alloc: Global, report: &Report) -> Result<Vec<u8>, AllocError>
    ensures { IfOk result (λ text. text.items ≡ report_text (findings report.now)) }
{
    if is_clean(report) {
        clean_text(alloc, report)
    } else {
        damage_text(alloc, report)
    }
}

/// The text of a report where nothing is wrong.
fn clean_text(alloc: Global, report: &Report) -> Result<Vec<u8>, AllocError>
    ensures { IfOk result (λ text. text.items ≡ clean_text (findings report.now)) }
{
    let mut line = Line::new();
    line.push(b"check: clean\n");
    write_count(&mut line, "blobs", report.blobs);
    write_count(&mut line, "bytes", report.bytes);
    write_count(&mut line, "stale", report.stale);
    Vec::from_slice(alloc, line.as_bytes())
}

/// The text of a report where something is wrong.
fn damage_text(alloc: Global, report: &Report) -> Result<Vec<u8>, AllocError>
    ensures { IfOk result (λ text. text.items ≡ damage_text (findings report.now)) }
{
    let mut text = Vec::new(alloc);
    for fault in &report.faults {
        text.extend_from_slice(fault_line(fault).as_bytes())?;
    }
    for root in &report.damaged {
        text.extend_from_slice(damaged_line(root).as_bytes())?;
    }
    let wrong = report.faults.len() as u64 + report.damaged.len() as u64;
    let mut line = Line::new();
    write_count(&mut line, "faults", wrong);
    text.extend_from_slice(line.as_bytes())?;
    Ok(text)
}

/// The line of a damaged blob.
fn damaged_line(root: &Digest) -> Line
    ensures { result ≡ damaged_line root.now }
{
    let mut line = Line::new();
    line.push(b"damaged ");
    line.push(&root_line(root));
    line
}

/// The line of a fault.
fn fault_line(fault: &MountFault) -> Line
    ensures { result ≡ fault_line fault.now }
{
    let mut line = Line::new();
    line.push(b"fault: ");
    write_fault(&mut line, fault);
    line.push(b"\n");
    line
}
