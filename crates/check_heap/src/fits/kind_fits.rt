//! Decisions whether a value or object matches a shape, one for each kind of value.

ghost use Rattle.std.specs.Prelude.{◌≡◌, ◌<◌, length, slice_get, Some, option_map, option_and_then};
ghost use Rattle.types_spec.specs.types.Fitting as fitting;
ghost use Rattle.types_spec.specs.types.Fitting.{block_fields, constr_fields, tag_fields, tag_with};
ghost use Rattle.types_spec.specs.types.Fitting.{argument_field};
ghost use Rattle.marshal_heap.specs.heap.Heap.{object_at, fields_of, custom_object};
ghost use Rattle.base_data.specs.declared.model.value.Obj.TheVariants as objects;
ghost use Rattle.check_heap.specs.fits.Needs.{needs_in};

use crate::fits::needs::Needs;
use base_data::model::code::Custom;
use base_data::model::value::Val;
use marshal_heap::heap::{Heap, Kind, NumberedObject};
use types_spec::types::shape::{Constr, PolyTag, ShapeOf};
use types_table::leaf_fits::tag_of_hash;

/// Returns true if a custom block matches the shape.
pub fn fits_custom(shape: &ShapeOf<usize>, custom: Custom) -> bool
    ensures { fitting.none_if result ≡ fitting.object_fields shape.now (custom_object custom) }
{
    match custom {
        Custom::I32(_) => matches!(shape, ShapeOf::Int32 | ShapeOf::Anything),
        Custom::I64(_) => matches!(shape, ShapeOf::Int64 | ShapeOf::Anything),
        Custom::Native(_) => matches!(shape, ShapeOf::Native | ShapeOf::Anything),
    }
}

/// Returns the typed fields of a block, or `None` if the block does not match the shape.
pub fn block_needs<'a>(
    block: &NumberedObject<'_>,
    tag: u8,
    size: u64,
    shape: &'a ShapeOf<usize>,
) -> Option<Needs<'a>>
    requires { size ≡ length (fields_of (object_at block.now.heap.now block.now.object)) }
    ensures { option_map needs_in result ≡ block_fields shape.now tag
        (fields_of (object_at block.now.heap.now block.now.object)) }
{
    match shape {
        ShapeOf::Sum(_, blocks) => constr_needs(blocks.as_slice(), tag, size),
        ShapeOf::Product(_, types) if tag == 0 && types.len() as u64 == size => Some(Needs::Listed(
            types.as_slice(),
        )),
        ShapeOf::ArrayOf(ty) if tag == 0 => Some(Needs::Each(size, *ty)),
        ShapeOf::ArrayOfAnything(ty) if tag == 0 => Some(Needs::Each(size, *ty)),
        ShapeOf::Poly(tags) if tag == 0 => tag_needs(block, size, tags.as_slice()),
        ShapeOf::Anything => Some(Needs::Nothing),
        _ => None,
    }
}

/// Returns the fields of a block of `size` fields by its constructor.
fn constr_needs(blocks: &[Constr<usize>], tag: u8, size: u64) -> Option<Needs<'_>>
    ensures { option_map needs_in result ≡ constr_fields size (slice_get blocks.now tag) }
{
    if tag as usize >= blocks.len() {
        return None;
    }
    let fields = blocks[tag as usize].fields.as_slice();
    if fields.len() as u64 == size {
        Some(Needs::Listed(fields))
    } else {
        None
    }
}

/// Returns the typed fields of the block of a polymorphic variant with an argument.
fn tag_needs<'a>(
    block: &NumberedObject<'_>,
    size: u64,
    tags: &'a [PolyTag<usize>],
) -> Option<Needs<'a>>
    requires { size ≡ length (fields_of (object_at block.now.heap.now block.now.object)) }
    ensures { option_map needs_in result
        ≡ tag_fields tags.now (fields_of (object_at block.now.heap.now block.now.object)) }
{
    if size != 2 {
        return None;
    }
    match block.heap.field(block.object, 0) {
        Val::Int(hash) => argument_needs(tags, hash),
        _ => None,
    }
}

/// Returns the typed field for the argument of the tag with this hash.
fn argument_needs(tags: &[PolyTag<usize>], hash: i64) -> Option<Needs<'_>>
    ensures { option_map needs_in result
        ≡ option_and_then (λ tag. argument_field tag.arg) (tag_with tags.now hash) }
{
    match tag_of_hash(tags, hash)?.arg {
        Some(ty) => Some(Needs::Argument(ty)),
        None => None,
    }
}

/// Returns true if an object that matches the shape is mutable.
pub fn is_mutable(heap: &Heap, o: u64, shape: &ShapeOf<usize>) -> bool
    requires { o < length heap.now }
    ensures { result ≡ fitting.is_mutable shape.now (slice_get heap.now o) }
{
    match shape {
        ShapeOf::Bytes(mutable) => *mutable,
        ShapeOf::Sum(_, blocks) => is_mutable_block(
            blocks.as_slice(),
            block_tag(&NumberedObject { heap, object: o }),
        ),
        ShapeOf::Product(mutable, _) => *mutable,
        ShapeOf::FlatFloats(mutable, _) => *mutable,
        ShapeOf::ArrayOf(_) => true,
        ShapeOf::FloatArray => true,
        ShapeOf::ArrayOfAnything(_) => true,
        _ => false,
    }
}

/// Returns true if the shape constrains its values.
#[inline(always)]
pub fn is_asked(shape: &ShapeOf<usize>) -> bool
    ensures { result ≡ fitting.is_asked shape.now }
{
    match shape {
        ShapeOf::Anything => false,
        _ => true,
    }
}

/// Returns the tag of a block, and 0 for any other object.
pub fn block_tag(placed: &NumberedObject<'_>) -> u8
    ensures { result ≡ fitting.tag_of_block (slice_get placed.now.heap.now placed.now.object) }
{
    match placed.heap.kind(placed.object) {
        Kind::Block(tag, _) => tag,
        _ => 0,
    }
}

/// Returns true if the block of a constructor is mutable.
fn is_mutable_block(blocks: &[Constr<usize>], tag: u8) -> bool
    ensures { result ≡ fitting.is_mutable_block (slice_get blocks.now tag) }
{
    (tag as usize) < blocks.len() && blocks[tag as usize].mutable
}
