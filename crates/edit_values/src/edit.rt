//! Applies one edit to a value.

ghost use Rattle.std.specs.Prelude.{ℕ, ◌<◌, ◌≤◌, ◌≡◌, length, take, Result, List};
ghost use Rattle.base_data.specs.declared.model.value.Val.{Val};
ghost use Rattle.base_data.specs.declared.model.value.Obj.{Obj};
ghost use Rattle.base_data.specs.model.Graph.{IsValue, IsGraph};
ghost use Rattle.text_path.specs.declared.edits.Edit.TheVariants as edits;
ghost use Rattle.edit_values.specs.Reasons.{Reason};
ghost use Rattle.edit_values.specs.EditPositions.{StandsAt, IsThere};
ghost use Rattle.edit_values.specs.TableEdits.{IsAnswerIn, IsApplied, IsKept, Gives};
ghost use Rattle.edit_values.specs.EditedValues.{write_at};

use crate::edit_refusal::{EditRefusal, EditSide};
use crate::spots::{Location, TypedLocation, find_position};
use base_data::model::path::Path;
use base_data::model::value::Val;
use check_heap::check::{Steps, Verdict, check};
use marshal_heap::heap::Heap;
use std::alloc::Global;
use text_literal::parser::read_literal;
use text_path::Edit;
use types_lex::lexeme::Lexeme;
use types_table::type_table::TypeTable;

/// Applies an edit to a value at type 0 of the table. If the edit is refused, the value is
/// unchanged.
#[tactic(auto, using(crate::proofs::ApplyLemmas::only_given))]
pub fn apply(
    alloc: Global,
    heap: &mut Heap,
    root: &mut Val,
    table: &TypeTable,
    edit: &Edit,
) -> Result<(), EditRefusal>
    requires value { IsValue (length heap.old) root.old }
    // Either the value is edited, or the value is unchanged and the result is a refusal.
    ensures answer { IsApplied table.now edit.now heap.old root.old heap.new root.new result }
    // If memory does not run out, the result is the only answer that the specification allows.
    ensures only { (answer : Result (List Obj × Val) (Reason ℕ))
        → IsAnswerIn table.now edit.now heap.old root.old answer
        → Gives answer heap.new root.new result }
    ensures value { IsValue (length heap.new) root.new }
{
    table.holds();
    match edit {
        Edit::Set(path, lexemes, end) => {
            set(alloc, heap, root, table, path, lexemes.as_slice(), *end)
        }
        Edit::Link(path, source) => link(alloc, heap, root, table, path, source),
        Edit::Unshare(path) => unshare(alloc, heap, root, table, path),
    }
}

/// Replaces the value at the path by the value of a literal.
fn set(
    alloc: Global,
    heap: &mut Heap,
    root: &mut Val,
    table: &TypeTable,
    path: &Path,
    lexemes: &[Lexeme],
    end: usize,
) -> Result<(), EditRefusal>
    requires value { IsValue (length heap.old) root.old }
    ensures answer { IsApplied table.now (edits.Set path.now lexemes.now end) heap.old root.old
        heap.new root.new result }
    ensures value { IsValue (length heap.new) root.new }
{
    let position = find_position(heap, *root, table, EditSide::Left, path)?;
    let count = heap.count();
    let value = read_literal(alloc, heap, table, position.ty, lexemes, end)?;
    write_if_typed(alloc, heap, root, table, position, value, count)
}

/// Replaces the value at the path by the value at another path.
fn link(
    alloc: Global,
    heap: &mut Heap,
    root: &mut Val,
    table: &TypeTable,
    path: &Path,
    source: &Path,
) -> Result<(), EditRefusal>
    requires value { IsValue (length heap.old) root.old }
    ensures answer { IsApplied table.now (edits.Link path.now source.now) heap.old root.old
        heap.new root.new result }
    ensures value { IsValue (length heap.new) root.new }
{
    let position = find_position(heap, *root, table, EditSide::Left, path)?;
    let from = find_position(heap, *root, table, EditSide::Right, source)?;
    let count = heap.count();
    write_if_typed(alloc, heap, root, table, position, from.value, count)
}

/// Replaces the object at the path by a copy of that object.
fn unshare(
    alloc: Global,
    heap: &mut Heap,
    root: &mut Val,
    table: &TypeTable,
    path: &Path,
) -> Result<(), EditRefusal>
    requires value { IsValue (length heap.old) root.old }
    ensures answer { IsApplied table.now (edits.Unshare path.now) heap.old root.old heap.new
        root.new result }
    ensures value { IsValue (length heap.new) root.new }
{
    let position = find_position(heap, *root, table, EditSide::Left, path)?;
    let Val::Ref(object) = position.value else {
        return Err(EditRefusal::NotBlock);
    };
    let count = heap.count();
    let copy = heap.copy_object(object)?;
    write_if_typed(alloc, heap, root, table, position, Val::Ref(copy), count)
}

/// Writes a value at a location if the whole value then has its type. Otherwise the first `count`
/// objects of the heap are unchanged.
pub(crate) fn write_if_typed(
    alloc: Global,
    heap: &mut Heap,
    root: &mut Val,
    table: &TypeTable,
    position: TypedLocation<usize>,
    value: Val,
    count: u64,
) -> Result<(), EditRefusal>
    requires count { count ≤ length heap.old }
    requires root { IsValue count root.old }
    requires stands { StandsAt (take count heap.old) root.old position.spot position.value }
    requires before { IsValue count position.value }
    requires closed { IsGraph (take count heap.old) }
    requires valid { IsValue (length heap.old) value }
    ensures kept { IsKept table.now (write_at position.spot value heap.old root.old)
        (take count heap.old) root.old heap.new root.new result }
    ensures value { IsValue (length heap.new) root.new }
{
    write(heap, root, position.spot, value);
    let refusal = match check(alloc, heap, *root, table, &mut Steps::new()) {
        Ok(Verdict::Yes(_)) => return Ok(()),
        Ok(Verdict::No(fault)) => EditRefusal::IllTyped(fault),
        Err(_) => EditRefusal::Memory,
    };
    write(heap, root, position.spot, position.value);
    heap.truncate(count);
    Err(refusal)
}

/// Writes a value at a location.
fn write(heap: &mut Heap, root: &mut Val, spot: Location, value: Val)
    requires valid { IsValue (length heap.old) value }
    requires there { IsThere heap.old spot }
    ensures { (heap.new, root.new) ≡ write_at spot value heap.old root.old }
{
    match spot {
        Location::Root => *root = value,
        Location::Field(object, field) => heap.set(object, field, value),
    }
}
