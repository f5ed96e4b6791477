//! Compares tokens with the shape of the required type.

ghost use Rattle.std.specs.Prelude.{◌≡◌, ◌<◌, List, Some, length, IfSome, option_map};
ghost use Rattle.base_data.specs.declared.model.value.Val.{Val};
ghost use Rattle.base_data.specs.declared.model.value.Obj.TheVariants as objects;
ghost use Rattle.types_spec.specs.types.Fitting as fitting;
ghost use Rattle.types_table.specs.type_table.Made.{table_of};
ghost use Rattle.types_spec.specs.types.Table.{table_shapes};
ghost use Rattle.std.specs.Bool.{OnTrue};
ghost use Rattle.std.specs.Prelude.{slice_get};
ghost use Rattle.check_stream.specs.theory.AskedNeeds.{shape_at, block_needs, constr_needs};
ghost use Rattle.check_stream.specs.theory.AskedNeeds.{shape_asks};
ghost use Rattle.check_stream.specs.theory.AskedNeeds.{IsWildcard};
ghost use Rattle.check_stream.specs.checker.OpenPositions.{open_needs};

use crate::checker::open_positions::BlockPositions;
use types_spec::types::shape::{Constr, ShapeOf};
use types_table::leaf_fits::{fits_int, is_below};
use types_table::type_table::TypeTable;

/// Returns the shape of a type, or `None` if the table has no such type.
#[inline(always)]
pub fn shape_of(table: &TypeTable, ty: usize) -> Option<&ShapeOf<usize>>
    ensures { IfSome result (λ shape. shape.now ≡ shape_at (table_of table.now) ty) }
{
    if ty < table.count() {
        Some(table.shape(ty))
    } else {
        None
    }
}

/// Returns true if an integer matches the shape. The function is the fast path of `fits_int`: a
/// chain of tests with common shapes first.
#[inline(always)]
pub fn fits_fast_int(shape: &ShapeOf<usize>, z: i64) -> bool
    ensures { result ≡ fitting.fits_int shape.now z }
{
    match shape {
        ShapeOf::Sum(constants, _) => is_below(*constants, z),
        _ => fits_plain_int(shape, z),
    }
}

/// Returns true if an integer matches the shape. The fast path calls `fits_plain_int` for shapes
/// other than sums.
#[inline(always)]
fn fits_plain_int(shape: &ShapeOf<usize>, z: i64) -> bool
    ensures { result ≡ fitting.fits_int shape.now z }
{
    match shape {
        ShapeOf::AnyInt => true,
        _ => fits_other_int(shape, z),
    }
}

/// Returns true if an integer matches the shape. The fast path calls `fits_other_int`, which is not
/// inlined, for shapes that rarely have integers.
#[inline(never)]
fn fits_other_int(shape: &ShapeOf<usize>, z: i64) -> bool
    ensures { result ≡ fitting.fits_int shape.now z }
{
    fits_int(shape, z)
}

/// Returns the positions of a block's fields if the block matches the shape. For wildcards, use
/// `positions_at`.
#[inline(always)]
pub fn block_positions(shape: &ShapeOf<usize>, tag: u8, size: u64) -> Option<BlockPositions<'_>>
    ensures { option_map open_needs result ≡ block_needs shape.now tag size }
{
    match shape {
        ShapeOf::Sum(_, blocks) => constr_positions(blocks.as_slice(), tag, size),
        ShapeOf::Product(_, types) if tag == 0 && types.len() as u64 == size => {
            Some(BlockPositions::Listed(types.as_slice()))
        }
        ShapeOf::ArrayOf(ty) if tag == 0 => Some(BlockPositions::Each(size, *ty)),
        ShapeOf::Poly(tags) if tag == 0 && size == 2 => Some(BlockPositions::Tagged(
            tags.as_slice(),
        )),
        ShapeOf::ArrayOfAnything(ty) if tag == 0 => Some(BlockPositions::Each(size, *ty)),
        _ => None,
    }
}

/// Returns the positions of a block's fields if the block matches the shape. If the type is a
/// wildcard, the types of the fields are wildcards too.
#[inline(always)]
pub fn positions_at(
    shape: &ShapeOf<usize>,
    ty: usize,
    tag: u8,
    size: u64,
) -> Option<BlockPositions<'_>>
    ensures { option_map open_needs result ≡ shape_asks shape.now ty tag size }
{
    match shape {
        ShapeOf::Anything => Some(BlockPositions::Each(size, ty)),
        _ => block_positions(shape, tag, size),
    }
}

/// Returns the positions of a block's fields if the block matches the shape. `fast_positions` is
/// the fast path of `positions_at`: a chain of tests that begins with the common shapes.
#[inline(always)]
pub fn fast_positions(
    shape: &ShapeOf<usize>,
    ty: usize,
    tag: u8,
    size: u64,
) -> Option<BlockPositions<'_>>
    ensures { option_map open_needs result ≡ shape_asks shape.now ty tag size }
{
    match shape {
        ShapeOf::Sum(_, blocks) => constr_positions(blocks.as_slice(), tag, size),
        _ => product_positions(shape, ty, tag, size),
    }
}

/// Returns the positions of a block's fields if the block matches the shape. The fast path calls
/// `product_positions` for shapes other than sums.
#[inline(always)]
fn product_positions(
    shape: &ShapeOf<usize>,
    ty: usize,
    tag: u8,
    size: u64,
) -> Option<BlockPositions<'_>>
    ensures { option_map open_needs result ≡ shape_asks shape.now ty tag size }
{
    match shape {
        ShapeOf::Product(_, types) => {
            if tag == 0 && types.len() as u64 == size {
                Some(BlockPositions::Listed(types.as_slice()))
            } else {
                None
            }
        }
        _ => other_positions(shape, ty, tag, size),
    }
}

/// Returns the positions of a block's fields if the block matches the shape. The fast path calls
/// `other_positions`, which is not inlined, for shapes that rarely have blocks.
#[inline(never)]
fn other_positions(
    shape: &ShapeOf<usize>,
    ty: usize,
    tag: u8,
    size: u64,
) -> Option<BlockPositions<'_>>
    ensures { option_map open_needs result ≡ shape_asks shape.now ty tag size }
{
    positions_at(shape, ty, tag, size)
}

/// Returns true if the type is a wildcard.
#[inline(always)]
pub fn is_wildcard(table: &TypeTable, ty: usize) -> bool
    ensures { OnTrue result (IsWildcard (table_of table.now) ty) }
{
    match shape_of(table, ty) {
        Some(ShapeOf::Anything) => true,
        _ => false,
    }
}

/// Returns the positions of the fields of a constructor's block, if the constructor has `size`
/// fields.
#[inline(always)]
fn constr_positions(blocks: &[Constr<usize>], tag: u8, size: u64) -> Option<BlockPositions<'_>>
    ensures { option_map open_needs result ≡ constr_needs size (slice_get blocks.now tag) }
{
    if tag as usize >= blocks.len() {
        return None;
    }
    let fields = blocks[tag as usize].fields.as_slice();
    if fields.len() as u64 == size {
        Some(BlockPositions::Listed(fields))
    } else {
        None
    }
}

/// Returns true if two types have equal numbers or equal classes. Types with equal classes are
/// equal.
#[inline(always)]
pub fn is_equal(table: &TypeTable, first: usize, second: usize) -> bool
    ensures { OnTrue result ((table_shapes (table_of table.now)).equal first second) }
{
    first == second || has_same_class(table, first, second)
}

/// Returns true if two types have the same class.
fn has_same_class(table: &TypeTable, first: usize, second: usize) -> bool
    ensures { OnTrue result ((table_shapes (table_of table.now)).equal first second) }
{
    let many = table.count();
    first < many && second < many && table.class(first) == table.class(second)
}

/// Returns true if a block with this tag is mutable at this shape.
pub fn may_change(shape: &ShapeOf<usize>, tag: u8) -> bool
    ensures { (values : List Val)
        → result ≡ fitting.is_mutable shape.now (Some (objects.Block tag values)) }
{
    match shape {
        ShapeOf::Bytes(mutable) => *mutable,
        ShapeOf::Sum(_, blocks) => is_mutable_at(blocks.as_slice(), tag),
        ShapeOf::Product(mutable, _) => *mutable,
        ShapeOf::FlatFloats(mutable, _) => *mutable,
        ShapeOf::ArrayOf(_) => true,
        ShapeOf::FloatArray => true,
        ShapeOf::ArrayOfAnything(_) => true,
        _ => false,
    }
}

/// Returns true if the block of a constructor is mutable.
fn is_mutable_at(blocks: &[Constr<usize>], tag: u8) -> bool
    ensures { result ≡ fitting.is_mutable_block (slice_get blocks.now tag) }
{
    if tag as usize >= blocks.len() {
        return false;
    }
    blocks[tag as usize].mutable
}

/// Returns the type of the object with number `object`.
#[inline(always)]
pub fn type_at(types: &[u16], object: usize) -> usize
    requires { object < length types.now }
    ensures { slice_get types.now object ≡ Some result }
{
    usize::from(types[object])
}
