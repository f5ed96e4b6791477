//! Edits values by the lines of a script.

ghost use Rattle.std.specs.Prelude.{◌≡◌, ℕ, List, true, false, length, Some, IfOk, OnOk};
ghost use Rattle.base_data.specs.model.Graph.{IsValue};
ghost use Rattle.base_io.specs.StreamState.{change};
ghost use Rattle.session.specs.Earlier.{AreMade, AreServed, IsServed};
ghost use Rattle.session.specs.Edits.{EditsAll, EditsLine, EditsLines, WritesEdited, IsReasonExit};
ghost use Rattle.session.specs.Edits.{IsPast};
ghost use Rattle.edit_values.specs.Grafts.{Other};
ghost use Rattle.edit_values.specs.LineLaws.{IsLineApplied};
ghost use Rattle.edit_values.specs.Reasons.{Reason, literal_reason, reason_of};
ghost use Rattle.run_types.specs.Language.{lines_of_value};

use crate::earlier::{Earlier, earlier_value};
use base_data::lines::PositionStyle;
use base_data::model::Memory;
use base_io::Sink;
use cli_errors::exit_line::Error;
use cli_spec::exit::Exit;
use edit_values::{EditRefusal, apply, graft, refusal_text, tables_answer_lines_agree};
use marshal_heap::heap::Rooted;
use marshal_read::Value;
use run_types::{Requested, check_type, write_bytes};
use std::alloc::Global;
use text_literal::parser::LiteralFault;
use text_path::{Action, Script, ScriptLine};

/// The lines of a script and the type of the values. If `compat` is true, values that a 32-bit
/// reader cannot hold are refused.
#[derive(Clone, Copy)]
pub struct Edits<'a> {
    pub requested: &'a Requested,
    pub script: &'a Script,
    pub compat: bool,
}

impl Edits<'_> {
    ghost use Rattle.std.specs.Bool.{OnTrue};
    ghost use Rattle.session.specs.FastCheck.{IsLeft};

    /// Returns true if the canonical bytes of the value with number `number` can be written without
    /// editing. No line may edit the value or copy from the value, and `compat` must be false.
    pub fn leave(self, number: u64) -> bool
        ensures { OnTrue result (IsLeft self.entry number) }
    {
        if self.compat {
            return false;
        }
        if self.script.last_use(number).unwrap_or(0) > number {
            return false;
        }
        let mut lines = self.script.lines_of(number);
        match lines.next() {
            Some(_) => false,
            None => true,
        }
    }
}

/// Checks the value with number `number` against the type, edits the value by its lines, and writes
/// the value's bytes. Lines may copy parts of the earlier values in `kept`.
pub fn edit_value<K: Sink>(
    alloc: Global,
    value: &mut Value,
    number: u64,
    edits: Edits<'_>,
    kept: &[Earlier],
    out: &mut K,
) -> Result<(), Error>
    requires value { IsValue (length value.old.heap) value.old.root }
    requires kept { (others : List Other) × AreMade others kept.now }
    requires served { AreServed kept.now (lines_of_value number edits.script.now.lines) }
    ensures writes { (others : List Other) → AreMade others kept.now
        → WritesEdited edits.entry others number value.old.heap value.old.root
        (change (K.state out.old) (K.state out.new)) result }
    ensures made { (others : List Other) → AreMade others kept.now
        → OnOk result
        (EditsAll edits.entry.requested.now others number edits.entry.script.now.lines value.old
        value.new) }
{
    let old = Rooted {
        heap: &value.heap,
        root: value.root,
    };
    check_type(alloc, &old, number, edits.requested)?;
    edit_by_lines(alloc, value, number, edits.requested, edits.script, kept)?;
    let new = Rooted {
        heap: &value.heap,
        root: value.root,
    };
    write_bytes(alloc, &new, number, edits.compat, out)
}

/// Edits the value with number `number` by its lines of the script, in order.
fn edit_by_lines(
    alloc: Global,
    value: &mut Value,
    number: u64,
    requested: &Requested,
    script: &Script,
    kept: &[Earlier],
) -> Result<(), Error>
    requires value { IsValue (length value.old.heap) value.old.root }
    requires kept { (others : List Other) × AreMade others kept.now }
    requires served { AreServed kept.now (lines_of_value number script.now.lines) }
    ensures { (others : List Other) → AreMade others kept.now
        → EditsLines requested.now others number script.now.lines value.old value.new result }
{
    let mut rest = script.lines_of(number);
    while let Some(line) = rest.next() {
        edit_by_line(alloc, value, number, requested, line, kept)?;
    }
    Ok(())
}

/// If a line edits the value with number `number`, edits the value by the line.
fn edit_by_line(
    alloc: Global,
    value: &mut Value,
    number: u64,
    requested: &Requested,
    line: &ScriptLine,
    kept: &[Earlier],
) -> Result<(), Error>
    requires value { IsValue (length value.old.heap) value.old.root }
    requires kept { (others : List Other) × AreMade others kept.now }
    requires served { IsServed kept.now line.now.action }
    ensures { (others : List Other) → AreMade others kept.now
        → EditsLine requested.now others number line.now value.old value.new result }
{
    if line.value != number {
        return Ok(());
    }
    tables_answer_lines_agree();
    requested.holds();
    match act(alloc, value, requested, &line.action, kept) {
        Ok(()) => Ok(()),
        Err(refusal) => Err(Error::Exit(line_exit(alloc, requested, line.number, &refusal)?)),
    }
}

/// Executes the request of a line: an edit, or a copy of a part of an earlier value.
fn act(
    alloc: Global,
    value: &mut Value,
    requested: &Requested,
    action: &Action,
    kept: &[Earlier],
) -> Result<(), EditRefusal>
    requires value { IsValue (length value.old.heap) value.old.root }
    requires kept { (others : List Other) × AreMade others kept.now }
    requires served { IsServed kept.now action.now }
    ensures applied { (others : List Other) → AreMade others kept.now
        → IsLineApplied requested.now.table others action.now value.old.heap value.old.root
        value.new.heap value.new.root result }
    ensures value { IsValue (length value.new.heap) value.new.root }
{
    let table = requested.table();
    match action {
        Action::Edit(edit) => apply(alloc, &mut value.heap, &mut value.root, table, edit),
        Action::Graft(path, number, source) => {
            let from = earlier_value(kept, *number);
            graft(
                alloc,
                &mut value.heap,
                &mut value.root,
                table,
                path,
                &from.heap,
                from.root,
                source,
            )
        }
    }
}

/// Returns the exit reason for a line that is refused.
fn line_exit(
    alloc: Global,
    requested: &Requested,
    number: usize,
    refusal: &EditRefusal,
) -> Result<Exit, Memory>
    ensures { IfOk result (λ exit. IsReasonExit requested.now number (reason_of refusal.now) exit) }
{
    if is_memory(refusal) {
        return Err(Memory);
    }
    let positions = PositionStyle::of_line(requested.lines(), number as u64);
    let text = refusal_text(alloc, requested.table(), &positions, refusal)?;
    Ok(Exit::Script(number, text))
}

/// Returns true if the refusal is out of memory.
fn is_memory(refusal: &EditRefusal) -> bool
    ensures { result ≡ false → (reason : Reason ℕ) × (reason_of refusal.now ≡ Some reason) }
{
    match refusal {
        EditRefusal::Memory => true,
        EditRefusal::Literal(fault) => is_memory_in(*fault),
        EditRefusal::NoField(_, _) => false,
        EditRefusal::NotBlock => false,
        EditRefusal::IllTyped(_) => false,
    }
}

/// Returns true if the error of a literal is out of memory.
fn is_memory_in(fault: LiteralFault) -> bool
    ensures { result ≡ false → (reason : Reason ℕ) × (literal_reason fault ≡ Some reason) }
{
    match fault {
        LiteralFault::Memory => true,
        _ => false,
    }
}

/// Returns the line number of the first line whose value number is at least `count`, or `None` if
/// there is no such line.
pub fn line_past(lines: &[ScriptLine], count: u64) -> Option<usize>
    ensures { IsPast lines.now count result }
{
    let mut rest = lines;
    while let Some((line, more)) = rest.split_first() {
        if line.value >= count {
            return Some(line.number);
        }
        rest = more;
    }
    None
}
