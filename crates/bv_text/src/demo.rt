//! The summary that the demonstration prints.

ghost use Rattle.std.specs.Prelude.{◌≡◌, ◌++◌, IfOk, OnOk, codes, count_by, decimal, map, sum};
ghost use Rattle.std.specs.List.Sorted.{IsStrictlySortedBy};
ghost use Rattle.std.specs.Map.{keys_of, values_of};
ghost use Rattle.spec_core.specs.History.{opening_map};
ghost use Rattle.spec_session.specs.Demo.{is_add, is_publish, is_purge, summary_line, summary_text};
ghost use Rattle.spec_tree.specs.Order.{digest_cmp};

use crate::blobs::blobs_after;
use crate::machine::core_after;
use bv_model::History;
use bv_script::Script;
use itoa::Buffer;
use spec_core::MapChange;
use spec_script::{Command, Digest, ScriptLine};
use spec_tree::Blob;
use std::alloc::{AllocError, Global};
use std::collections::BTreeMap;

/// Whether a command adds a blob.
fn is_add(command: &Command) -> bool
    ensures { result ≡ is_add command.now }
{
    match command {
        Command::Add { .. } => true,
        _ => false,
    }
}

/// Whether a change publishes a blob.
fn is_publish(change: &MapChange) -> bool
    ensures { result ≡ is_publish change.now }
{
    match change {
        MapChange::Publish { .. } => true,
        MapChange::Purge { .. } => false,
    }
}

/// Whether a change purges a blob.
fn is_purge(change: &MapChange) -> bool
    ensures { result ≡ is_purge change.now }
{
    match change {
        MapChange::Publish { .. } => false,
        MapChange::Purge { .. } => true,
    }
}

/// How many of these lines add a blob.
fn adds_in(lines: &[ScriptLine]) -> usize
    ensures { result ≡ count_by (λ line. is_add line.command) lines.now }
{
    lines.iter().filter(|line| is_add(&line.command)).count()
}

/// How many of these changes publish a blob.
fn published_in(changes: &[MapChange]) -> usize
    ensures { result ≡ count_by is_publish changes.now }
{
    changes.iter().filter(|change| is_publish(change)).count()
}

/// How many of these changes purge a blob.
fn purged_in(changes: &[MapChange]) -> usize
    ensures { result ≡ count_by is_purge changes.now }
{
    changes.iter().filter(|change| is_purge(change)).count()
}

/// The sum of these numbers.
fn sum_of(sizes: &[u64]) -> u128
    ensures { result ≡ sum sizes.now }
{
    let mut total = 0;
    for i in 0..sizes.len() {
        total += u128::from(sizes[i]);
    }
    total
}

/// The bytes of all these blobs.
fn bytes_of(alloc: Global, blobs: &BTreeMap<Digest, Blob>) -> Result<u128, AllocError>
    ensures { IfOk result (λ n. n ≡ sum (map (λ b. b.size) (values_of blobs.now.entries))) }
{
    let sizes: Vec<u64> = blobs.values().map(|blob| blob.size).collect(alloc)?;
    Ok(sum_of(&sizes))
}

/// Puts a line of the summary.
fn put_line(out: &mut Vec<u8>, word: &[u8], number: u128) -> Result<(), AllocError>
    ensures { OnOk result (out.new.items ≡ out.old.items ++ summary_line word.now number) }
{
    out.extend_from_slice(word)?;
    out.extend_from_slice(b" ")?;
    out.extend_from_slice(Buffer::new().format(number).as_bytes())?;
    out.extend_from_slice(b"\n")
}

/// The summary that the demonstration prints of its script's run, of so many rounds.
pub fn summary(
    alloc: Global,
    rounds: u64,
    script: &Script,
    history: &History,
) -> Result<Vec<u8>, AllocError>
    requires sorted { IsStrictlySortedBy digest_cmp (keys_of (opening_map history.now.history)) }
    ensures { IfOk result (λ text. text.items
        ≡ summary_text rounds script.now history.now.history) }
{
    let core = core_after(alloc, history)?;
    let changes = core.changes();
    let blobs = blobs_after(alloc, history, changes)?;
    let bytes = bytes_of(alloc, &blobs)?;
    let mut out = Vec::new(alloc);
    put_line(&mut out, b"demo", u128::from(rounds))?;
    put_line(&mut out, b"adds", adds_in(script.lines()) as u128)?;
    put_line(&mut out, b"published", published_in(changes) as u128)?;
    put_line(&mut out, b"purged", purged_in(changes) as u128)?;
    put_line(&mut out, b"blobs", blobs.len() as u128)?;
    put_line(&mut out, b"bytes", bytes)?;
    Ok(out)
}
