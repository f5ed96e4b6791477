//! Fast path for the typed fields of objects of the most common shapes.

ghost use Rattle.std.specs.Prelude.{◌≡◌, ◌<◌, List, length, slice_get, option_map, Some, []};
ghost use Rattle.std.specs.Prelude.{IsSome, IsTrue, IfSome};
ghost use Rattle.base_data.specs.declared.model.value.Obj.{Obj};
ghost use Rattle.base_data.specs.declared.model.value.Val.{Val};
ghost use Rattle.base_data.specs.declared.model.value.Val.TheVariants as vals;
ghost use Rattle.types_spec.specs.types.Fitting.{fields_of, numbered_from};
ghost use Rattle.marshal_heap.specs.heap.Heap.{word_of};
ghost use Rattle.check_heap.specs.fits.Needs.{first_fields, constr_needed};

use marshal_heap::heap::Heap;
use types_spec::types::shape::{Constr, ShapeOf};

/// Returns the field types of an object that matches the shape, if the shape is a product or a sum
/// of constructors. `word` is the word of the object.
#[inline(always)]
pub fn listed_types<'a>(
    heap: &Heap,
    o: u64,
    word: u64,
    shape: &'a ShapeOf<usize>,
) -> Option<&'a [usize]>
    requires object { o < length heap.now }
    requires word { word ≡ word_of heap.now (vals.Ref o) }
    requires fits { IsSome (fields_of heap.now (vals.Ref o) shape.now) }
    ensures { IfSome result
        (λ types. fields_of heap.now (vals.Ref o) shape.now
        ≡ Some (numbered_from 0 types.now)) }
{
    let _count = heap.count();
    if let ShapeOf::Sum(_, blocks) = shape {
        if blocks.len() == 1 {
            return Some(first_types(blocks.as_slice()));
        }
        return tagged_types(blocks.as_slice(), heap.header_at(word) % 1024);
    }
    if let ShapeOf::Product(_, types) = shape {
        return Some(types.as_slice());
    }
    None
}

/// Returns the field types of the first constructor.
#[inline(always)]
fn first_types(blocks: &[Constr<usize>]) -> &[usize]
    requires { 0 < length blocks.now }
    ensures { result.now ≡ first_fields blocks.now }
{
    blocks[0].fields.as_slice()
}

/// Returns the field types of the constructor with this tag.
#[inline(always)]
fn tagged_types(blocks: &[Constr<usize>], tag: u64) -> Option<&[usize]>
    ensures { option_map (λ types. numbered_from 0 types.now) result
        ≡ option_map constr_needed (slice_get blocks.now tag) }
{
    if (tag as usize) < blocks.len() {
        Some(blocks[tag as usize].fields.as_slice())
    } else {
        None
    }
}

/// Returns true if the shape alone shows that no field of a matching object has a type.
#[inline(always)]
pub fn needs_nothing(shape: &ShapeOf<usize>) -> bool
    ensures { (heap : List Obj) (v : Val) → IsTrue result → IsSome (fields_of heap v shape.now)
        → fields_of heap v shape.now ≡ Some [] }
{
    // The matched variants are adjacent, which makes one comparison sufficient.
    matches!(
        shape,
        ShapeOf::Bytes(_) | ShapeOf::Double | ShapeOf::Int32 | ShapeOf::Int64 | ShapeOf::Native
    )
}
