//! The typing that a linear scan determines: the pairs of an object and a type to which paths lead.

ghost use Rattle.std.specs.Prelude.{ℕ, ◌≡◌, ◌<◌, [], ◌∷◌, ◌++◌, length, IsTrue, IfOk, OnOk};
ghost use Rattle.std.specs.Prelude.{Contains};
ghost use Rattle.types_spec.specs.types.Fitting.{numbered_from};
ghost use Rattle.types_spec.specs.types.Table.{is_asked_in};
ghost use Rattle.types_table.specs.type_table.Made.{table_of};
ghost use Rattle.check_heap.specs.scan.Scanned.{pairs_with};
ghost use Rattle.check_heap.specs.scan.Seconds.{noted_in};
ghost use Rattle.check_heap.specs.check.AskedPairs.{asked_pairs, AreAsked, AreWithin, AreReached};

use crate::check::typed_objects::Typing;
use crate::fits::is_asked;
use crate::scan::{Cells, SecondTypes};
use base_data::model::Memory;
use std::alloc::Global;
use types_table::type_table::TypeTable;

/// Returns each object with its type, without the objects at unconstrained types. (A type is
/// unconstrained if every value has it.)
pub fn known_typing(alloc: Global, table: &TypeTable, types: Cells) -> Result<Typing, Memory>
    requires { AreWithin (table_of table.now) types }
    ensures { IfOk result (AreReached (table_of table.now) types (numbered_from 0 types)) }
{
    if are_asked(table, &types) {
        return Ok(Typing::scanned(types));
    }
    let pairs = pairs_asked(alloc, table, &types)?;
    Ok(Typing::listed(pairs))
}

/// Returns the pairs of `known_typing` and the recorded objects at their second types.
pub fn settled_typing(
    alloc: Global,
    table: &TypeTable,
    types: Cells,
    seconds: SecondTypes,
) -> Result<Typing, Memory>
    requires within { AreWithin (table_of table.now) types }
    requires noted { (o t : ℕ) → Contains (noted_in seconds) (o, t)
        → t < length table.now.nodes }
    ensures { IfOk result (AreReached (table_of table.now) types (pairs_with types seconds)) }
{
    if are_asked(table, &types) {
        return Typing::settled(types, seconds);
    }
    let mut pairs = pairs_asked(alloc, table, &types)?;
    write_noted(&mut pairs, table, &seconds)?;
    Ok(Typing::listed(pairs))
}

/// Returns true only if all types in `types` are constrained.
fn are_asked(table: &TypeTable, types: &Cells) -> bool
    requires { AreWithin (table_of table.now) types.now }
    ensures { IsTrue result → AreAsked (table_of table.now) types.now }
{
    if all_asked(table, types.len()) {
        return true;
    }
    for o in 0..types.len() {
        if !is_asked(table.shape(types.get(o) as usize)) {
            return false;
        }
    }
    true
}

/// Returns true only if all types of the table are constrained. If there are more types than
/// objects, returns false without a test.
fn all_asked(table: &TypeTable, objects: usize) -> bool
    ensures { IsTrue result → (t : ℕ) → t < length table.now.nodes
        → IsTrue (is_asked_in (table_of table.now) t) }
{
    let types = table.count();
    if objects < types {
        return false;
    }
    for i in 0..types {
        if !is_asked(table.shape(i)) {
            return false;
        }
    }
    true
}

/// Returns each object with its type, without the objects at unconstrained types.
fn pairs_asked(alloc: Global, table: &TypeTable, types: &Cells) -> Result<Vec<(u64, usize)>, Memory>
    requires { AreWithin (table_of table.now) types.now }
    ensures { IfOk result (λ pairs.
        pairs.items ≡ asked_pairs (table_of table.now) (numbered_from 0 types.now)) }
{
    let mut pairs = Vec::new(alloc);
    for o in 0..types.len() {
        let ty = types.get(o) as usize;
        write_if_asked(&mut pairs, table, o as u64, ty)?;
    }
    Ok(pairs)
}

/// Appends the recorded objects at their second types. Omits the objects at unconstrained types.
fn write_noted(
    pairs: &mut Vec<(u64, usize)>,
    table: &TypeTable,
    seconds: &SecondTypes,
) -> Result<(), Memory>
    requires { (o t : ℕ) → Contains (noted_in seconds.now) (o, t) → t < length table.now.nodes }
    ensures { OnOk result
        (pairs.new.items
        ≡ pairs.old.items ++ asked_pairs (table_of table.now) (noted_in seconds.now)) }
{
    for k in 0..seconds.len() {
        let (object, ty) = seconds.get(k);
        write_if_asked(pairs, table, object, ty)?;
    }
    Ok(())
}

/// Appends an object with a type, if the type is constrained.
fn write_if_asked(
    pairs: &mut Vec<(u64, usize)>,
    table: &TypeTable,
    object: u64,
    ty: usize,
) -> Result<(), Memory>
    requires { ty < length table.now.nodes }
    ensures { OnOk result
        (pairs.new.items
        ≡ pairs.old.items ++ asked_pairs (table_of table.now) ((object, ty) ∷ [])) }
{
    if !is_asked(table.shape(ty)) {
        return Ok(());
    }
    pairs.push((object, ty))?;
    Ok(())
}
