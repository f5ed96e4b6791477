//! Computes the shapes of predeclared variants, by type index.

ghost use Rattle.std.specs.Prelude.{◌<◌, Some, length, map, slice_index_or, All, IfOk};
ghost use Rattle.types_spec.specs.types.Ty.{named};
ghost use Rattle.types_spec.specs.types.TypeNodes.{type_at};
ghost use Rattle.types_spec.specs.types.Predeclared.{sum_at, name_at, applied, member_type};
ghost use Rattle.types_spec.specs.types.Predeclared.{constr_of, sum_shape};
ghost use Rattle.types_spec.specs.types.PredeclaredCode.{block_row, sum_row_of};
ghost use Rattle.types_table.specs.store.Held.{Grows, Holds};
ghost use Rattle.types_table.specs.store.Instance.{HasNumbers};
ghost use Rattle.types_build.specs.representation.Representation.{HasBlocks, IsShapeAt};

use base_data::model::Memory;
use base_data::model::list::List;
use std::alloc::Global;
use types_spec::types::predeclared::{BlockRow, SumField, SumRow, name, sum};
use types_spec::types::shape::{Constr, ShapeOf};
use types_table::store::TypeStore;

/// Returns the shape of the predeclared variant in row `number`. May append types to `types`, even
/// if the result is `Memory`.
pub(crate) fn sum_shape(
    alloc: Global,
    types: &mut TypeStore,
    number: usize,
    parts: &[usize],
) -> Result<ShapeOf<usize>, Memory>
    requires within { All (λ i. i < length types.old) parts.now }
    ensures ok { IfOk result
        (IsShapeAt types.new
        (sum_shape (sum_at number) (name_at number) (map (type_at types.old) parts.now))) }
    ensures grown { Grows types.old types.new }
{
    match sum(number) {
        Some(row) => row_shape(alloc, types, name(number), row, parts),
        None => Ok(ShapeOf::Variable),
    }
}

/// Returns the shape of the variant with this name in a row of the table.
fn row_shape(
    alloc: Global,
    types: &mut TypeStore,
    name: &[u8],
    row: SumRow,
    parts: &[usize],
) -> Result<ShapeOf<usize>, Memory>
    requires within { All (λ i. i < length types.old) parts.now }
    ensures ok { IfOk result
        (IsShapeAt types.new
        (sum_shape (Some (sum_row_of row)) name.now (map (type_at types.old) parts.now))) }
    ensures grown { Grows types.old types.new }
{
    if row.parameters != parts.len() {
        return Ok(ShapeOf::Variable);
    }
    let found = blocks(alloc, types, name, row.blocks, parts)?;
    Ok(ShapeOf::Sum(row.constants.len() as u64, List::of(found)))
}

/// Returns the blocks of the constructors with arguments.
fn blocks(
    alloc: Global,
    types: &mut TypeStore,
    name: &[u8],
    rows: &[BlockRow],
    parts: &[usize],
) -> Result<Vec<Constr<usize>>, Memory>
    requires { All (λ i. i < length types.old) parts.now }
    ensures ok { IfOk result
        (λ v. HasBlocks types.new
        (map (constr_of name.now (map (type_at types.old) parts.now))
        (map block_row rows.entry.now)) v.items) }
    ensures grown { Grows types.old types.new }
{
    let mut found = Vec::new(alloc);
    for row in rows {
        let fields = members(alloc, types, name, row.fields, parts)?;
        found.push(Constr {
            mutable: row.mutable,
            fields: List::of(fields),
        })?;
    }
    Ok(found)
}

/// Returns the indices of the types of the fields.
fn members(
    alloc: Global,
    types: &mut TypeStore,
    name: &[u8],
    fields: &[SumField],
    parts: &[usize],
) -> Result<Vec<usize>, Memory>
    requires { All (λ i. i < length types.old) parts.now }
    ensures ok { IfOk result
        (λ v. HasNumbers types.new
        (map (member_type name.now (map (type_at types.old) parts.now)) fields.now) v.items) }
    ensures grown { Grows types.old types.new }
{
    let mut numbers = Vec::new(alloc);
    for field in fields {
        let number = member(types, name, *field, parts)?;
        numbers.push(number)?;
    }
    Ok(numbers)
}

/// Returns the index of the type of a field.
fn member(
    types: &mut TypeStore,
    name: &[u8],
    field: SumField,
    parts: &[usize],
) -> Result<usize, Memory>
    requires { All (λ i. i < length types.old) parts.now }
    ensures ok { IfOk result
        (Holds types.old types.new
        (member_type name.now (map (type_at types.old) parts.now) field)) }
    ensures grown { Grows types.old types.new }
{
    match field {
        SumField::Argument(i) => argument(types, name, i, parts),
        SumField::Itself => itself(types, name, parts),
    }
}

/// Returns the index of argument `i`. If argument `i` does not exist, returns the index of the
/// variant itself.
fn argument(types: &mut TypeStore, name: &[u8], i: usize, parts: &[usize]) -> Result<usize, Memory>
    requires { All (λ n. n < length types.old) parts.now }
    ensures ok { let arguments = map (type_at types.old) parts.now in
        IfOk result
        (Holds types.old types.new
        (slice_index_or arguments i (applied (named name.now) arguments))) }
    ensures grown { Grows types.old types.new }
{
    if i < parts.len() {
        Ok(parts[i])
    } else {
        itself(types, name, parts)
    }
}

/// Returns the index of the type with this name and these arguments.
fn itself(types: &mut TypeStore, name: &[u8], parts: &[usize]) -> Result<usize, Memory>
    requires { All (λ i. i < length types.old) parts.now }
    ensures ok { IfOk result
        (Holds types.old types.new
        (applied (named name.now) (map (type_at types.old) parts.now))) }
    ensures grown { Grows types.old types.new }
{
    let mut whole = types.add_named(name)?;
    for part in parts {
        whole = types.add_part(whole, *part)?;
    }
    Ok(whole)
}
