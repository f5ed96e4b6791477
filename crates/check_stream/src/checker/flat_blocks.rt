//! Objects that are referenced at a second type. The pass accepts the second type if the object is
//! a flat block: a block whose fields are integers, atoms and references back.

ghost use Rattle.std.specs.Prelude.{◌≡◌, ◌≤◌, ◌+◌, ◌-◌, ℕ, List, [], length, drop, IfOk, OnOk};
ghost use Rattle.std.specs.Prelude.{slice_get, Some, Contains, false};
ghost use Rattle.std.specs.Bool.{OnTrue};
ghost use Rattle.base_data.specs.declared.model.value.Val.{Val};
ghost use Rattle.base_data.specs.declared.model.value.Val.TheVariants as vals;
ghost use Rattle.base_data.specs.declared.model.value.Obj.TheVariants as objects;
ghost use Rattle.types_spec.specs.types.Fitting as fitting;
ghost use Rattle.marshal_spec.specs.format.Token.{Token};
ghost use Rattle.marshal_spec.specs.format.Tree.{value_of};
ghost use Rattle.types_table.specs.type_table.Made.{table_of};
ghost use Rattle.check_stream.specs.theory.AskedNeeds.{shape_at};
ghost use Rattle.check_stream.specs.theory.Noted.{IsAt, IsFlat, IsFlatNoted};
ghost use Rattle.marshal_codec.specs.token.Summary.{IsSummary};
ghost use Rattle.check_stream.specs.checker.Again.{EncodeAll, AreMarks, AreFields, IsKnown};
ghost use Rattle.check_stream.specs.checker.Again.{AreNotes};

use crate::checker::open_positions::BlockPositions;
use crate::checker::reread::{block_at, inspect};
use crate::checker::token_fits::{
    block_positions, is_equal, is_wildcard, may_change, shape_of, type_at,
};
use base_data::model::Memory;
use marshal_codec::token::Summary;
use types_table::leaf_fits::{fits_atom, fits_int};
use types_table::type_table::TypeTable;

/// The maximum number of notes in the list of notes. A note is a pair of an object and a second
/// type of the object.
const MOST_NOTES: usize = 16;

/// Checks a reference with this offset in a field of `object`. Returns true if the field is a
/// wildcard, or if the reference leads to an object whose type is known and equals `ty`.
fn fits_back(table: &TypeTable, types: &[u16], object: usize, ty: usize, offset: u64) -> bool
    ensures { OnTrue result
        (IsAt (table_of table.now) types.now [] (vals.Ref (object + 1 - offset)) ty) }
{
    if is_wildcard(table, ty) {
        return true;
    }
    let Some(next) = (object as u64).checked_add(1) else {
        return false;
    };
    if offset == 0 || next < offset {
        return false;
    }
    let target = (next - offset) as usize;
    target < types.len() && is_equal(table, type_at(types, target), ty)
}

/// Returns true if a field of an object is flat and has the type.
fn is_flat_field(table: &TypeTable, types: &[u16], object: usize, ty: usize, seen: Summary) -> bool
    ensures { OnTrue result ((token : Token) → IsSummary seen token
        → IsFlat token
        × IsAt (table_of table.now) types.now [] (value_of token (object + 1)) ty) }
{
    let Some(shape) = shape_of(table, ty) else {
        return false;
    };
    match seen {
        Summary::Integer(z) => fits_int(shape, z),
        Summary::Atom(tag) => fits_atom(shape, tag),
        Summary::Shared(offset) => fits_back(table, types, object, ty, offset),
        _ => false,
    }
}

/// Returns true if the tokens from byte `start` on begin with flat fields of these types.
fn are_fields(
    table: &TypeTable,
    types: &[u16],
    prefix: &[u8],
    start: usize,
    object: usize,
    fields: &[usize],
) -> bool
    requires { start ≤ length prefix.now }
    ensures { OnTrue result ((tokens : List Token) → EncodeAll tokens (drop start prefix.now)
        → AreFields (table_of table.now) types.now object fields.now tokens) }
{
    let mut at = start;
    'fields: for ty in fields {
        let Some((seen, len)) = inspect::<false>(&prefix[at..]) else {
            return false;
        };
        if is_flat_field(table, types, object, *ty, seen) {
            at += len;
        } else {
            return false;
        }
    }
    true
}

/// Returns true if the first type of the object is known, and a block with this tag is immutable at
/// the first type.
fn is_fixed_at_first(table: &TypeTable, types: &[u16], object: usize, tag: u8) -> bool
    ensures { OnTrue result
        ((u : ℕ) → slice_get types.now object ≡ Some u → (values : List Val)
        → fitting.is_mutable (shape_at (table_of table.now) u) (Some (objects.Block tag values))
        ≡ false) }
{
    if object >= types.len() {
        return true;
    }
    let Some(first) = shape_of(table, type_at(types, object)) else {
        return false;
    };
    !may_change(first, tag)
}

/// Returns true if an object is an immutable flat block that has type `ty` as a second type. The
/// list `types` has the first types of the objects so far. Subtracts the number of re-read tokens
/// from `left`.
#[inline(never)]
pub fn is_flat(
    table: &TypeTable,
    types: &[u16],
    prefix: &[u8],
    marks: &[usize],
    left: &mut u64,
    object: usize,
    ty: usize,
) -> bool
    ensures { OnTrue result ((tokens : List Token) → AreMarks prefix.now marks.now tokens
        → IsFlatNoted (table_of table.now) types.now [] tokens object ty) }
{
    let Some((tag, size, start)) = block_at(prefix, marks, left, object) else {
        return false;
    };
    if *left < size {
        return false;
    }
    *left -= size;
    if !is_fixed_at_first(table, types, object, tag) {
        return false;
    }
    let Some(shape) = shape_of(table, ty) else {
        return false;
    };
    if may_change(shape, tag) {
        return false;
    }
    match block_positions(shape, tag, size) {
        Some(BlockPositions::Listed(fields)) => {
            fields.len() as u64 == size && are_fields(table, types, prefix, start, object, fields)
        }
        _ => false,
    }
}

/// Returns true if there is a note that the object has this type.
pub fn is_noted(notes: &[(usize, usize)], object: usize, ty: usize) -> bool
    ensures { OnTrue result (Contains notes.now (object, ty)) }
{
    notes.iter().any(|note| note.0 == object && note.1 == ty)
}

/// Adds a note that an object has a type. If the list already has `MOST_NOTES` notes, all old notes
/// are dropped first.
pub fn note(notes: &mut Vec<(usize, usize)>, object: usize, ty: usize) -> Result<(), Memory>
    ensures { OnOk result (AreNotes notes.old.items object ty notes.new.items) }
{
    if notes.len() >= MOST_NOTES {
        notes.clear();
    }
    notes.push((object, ty))?;
    Ok(())
}

/// Returns true if the reference with this offset leads to an object whose first type or second
/// type is `ty`.
#[inline(always)]
pub fn is_known(
    table: &TypeTable,
    types: &[u16],
    prefix: &[u8],
    marks: &[usize],
    notes: &mut Vec<(usize, usize)>,
    left: &mut u64,
    ty: usize,
    offset: u64,
) -> Result<bool, Memory>
    ensures { IfOk result
        (λ known. OnTrue known (IsKnown (table_of table.now) types.now prefix.now marks.now
        notes.old.items notes.new.items ty offset)) }
{
    let made = types.len() as u64;
    if offset == 0 || made < offset {
        return Ok(false);
    }
    let object = (made - offset) as usize;
    if is_equal(table, type_at(types, object), ty)
        || is_wildcard(table, ty)
        || is_noted(notes.as_slice(), object, ty)
    {
        return Ok(true);
    }
    if !is_flat(table, types, prefix, marks, left, object, ty) {
        return Ok(false);
    }
    note(notes, object, ty)?;
    Ok(true)
}
