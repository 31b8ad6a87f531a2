//! The rows of all lines of a script, after one pass over the events.

ghost use Rattle.std.specs.Prelude.{◌≡◌, ◌++◌, [], IfOk, OnOk, replicate};
ghost use Rattle.std.specs.List.Sorted.{IsStrictlySortedBy};
ghost use Rattle.std.specs.Map.{keys_of};
ghost use Rattle.spec_core.specs.History.{opening_map};
ghost use Rattle.spec_script.specs.Lawful.{Rise};
ghost use Rattle.spec_session.specs.Text.{TellsRoots};
ghost use Rattle.spec_tree.specs.Order.{digest_cmp};
ghost use Rattle.bv_text.specs.Rows.{AreRows, HaveRows, NotesAll, ShowAll, is_list, no_row};

use crate::machine::Machine;
use crate::row::Row;
use bv_model::History;
use spec_core::CoreEvent;
use spec_script::{Command, ScriptLine};
use std::alloc::{AllocError, Global};

/// What a history tells of the lines of a script: a row for each line, at the place of its number,
/// and the core after all events.
#[derive(Drop)]
pub struct Table {
    pub rows: Vec<Row>,
    pub core: Machine,
}

/// Whether a command lists.
fn is_list(command: &Command) -> bool
    ensures { result ≡ is_list command.now }
{
    match command {
        Command::List => true,
        _ => false,
    }
}

/// The row of a line of which nothing is told yet.
fn row_of(session: u32, lists: bool) -> Row
    ensures { result ≡ record no_row { session = session; lists = lists } }
{
    Row {
        session,
        lists,
        root: None,
        answer: None,
        listing: None,
    }
}

/// Puts so many rows that are no line's behind the others.
fn pad(rows: &mut Vec<Row>, more: usize) -> Result<(), AllocError>
    ensures { OnOk result (rows.new.items ≡ rows.old.items ++ replicate more no_row) }
{
    for _ in 0..more {
        rows.push(row_of(0, false))?;
    }
    Ok(())
}

/// The rows of these lines, before any event.
fn rows_of(alloc: Global, history: &History, lines: &[ScriptLine]) -> Result<Vec<Row>, AllocError>
    requires { Rise 1 lines.now }
    ensures rows { IfOk result (λ rows. AreRows history.now.history [] rows.items) }
    ensures lines { IfOk result (λ rows. HaveRows rows.items lines.now) }
{
    let mut rows = Vec::new(alloc);
    rows.push(row_of(0, false))?;
    for line in lines {
        let gap = (line.number as usize).saturating_sub(rows.len());
        pad(&mut rows, gap)?;
        rows.push(row_of(line.session, is_list(&line.command)))?;
    }
    Ok(rows)
}

/// Notes an event in the row of its line. The core is as it was before the event.
fn note(
    rows: &mut Vec<Row>,
    alloc: Global,
    event: &CoreEvent,
    core: &Machine,
) -> Result<(), AllocError>
    ensures { OnOk result (NotesAll core.now.state event.now rows.old.items rows.new.items) }
{
    let at = event.who.line as usize;
    if at >= rows.len() {
        return Ok(());
    }
    rows[at].note(alloc, event, core)
}

/// What a history tells of the lines of a script, by one pass over its events.
pub fn table_of(alloc: Global, history: &History, lines: &[ScriptLine]) -> Result<Table, AllocError>
    requires told { TellsRoots lines.now history.now.history }
    requires rise { Rise 1 lines.now }
    requires sorted { IsStrictlySortedBy digest_cmp (keys_of (opening_map history.now.history)) }
    ensures { IfOk result (λ table.
        ShowAll history.now.history table.rows.items table.core.state lines.now) }
{
    let mut rows = rows_of(alloc, history, lines)?;
    let mut core = Machine::mounted(alloc, history, 0)?;
    for event in history.events() {
        note(&mut rows, alloc, event, &core)?;
        core.change(event.who, event.act, event.reply)?;
    }
    Ok(Table { rows, core })
}
