//! Decides whether a value matches a shape, and which fields of a matching value have types.

ghost use Rattle.std.specs.Prelude.{◌≡◌, ◌<◌, length, slice_get, Some, IsSome, option_map};
ghost use Rattle.std.specs.Prelude.{option_and_then};
ghost use Rattle.base_data.specs.model.Graph.{IsValue};
ghost use Rattle.base_data.specs.declared.model.value.Val.TheVariants as vals;
ghost use Rattle.types_spec.specs.types.Fault.{type_of_field};
ghost use Rattle.types_spec.specs.types.Fitting.{fields_of, object_fields, none_if, numbered_from};
ghost use Rattle.check_heap.specs.fits.Needs.{needs_in, first_fields, constr_needed};

use crate::fits::kind_fits::{block_needs, block_tag, fits_custom};
use base_data::model::value::Val;
use marshal_heap::heap::{Heap, Kind, NumberedObject};
use types_spec::types::shape::{Constr, ShapeOf};
use types_table::leaf_fits::{fits_atom, fits_doubles, fits_int};

/// The fields to which a shape assigns types, in a value that matches the shape, each with its
/// type. A field is required only if the field's type constrains its values.
#[derive(Clone, Copy)]
pub enum Needs<'a> {
    /// No field has a type.
    Nothing,
    /// One field for each type in the list, from field 0 on.
    Listed(&'a [usize]),
    /// The number of fields, from field 0 on, and the one type of all these fields.
    Each(u64, usize),
    /// Field 1 alone, at the given type.
    Argument(usize),
}

impl<'a> Needs<'a> {
    /// Returns the number of fields.
    pub fn len(&self) -> u64
        ensures { result ≡ length (needs_in self.now) }
    {
        match *self {
            Needs::Nothing => 0,
            Needs::Listed(types) => types.len() as u64,
            Needs::Each(size, _) => size,
            Needs::Argument(_) => 1,
        }
    }

    /// Returns the index and the type of field `k` in the list of typed fields.
    pub fn get(&self, k: u64) -> (u64, usize)
        requires { k < length (needs_in self.now) }
        ensures { slice_get (needs_in self.now) k ≡ Some (result.0, result.1) }
    {
        match *self {
            Needs::Nothing => (0, 0),
            Needs::Listed(types) => (k, type_at(types, k as usize)),
            Needs::Each(_, ty) => (k, ty),
            Needs::Argument(ty) => (1, ty),
        }
    }

    /// Returns the type of field `i`, or `None` if the field has no type.
    pub fn type_of(&self, i: u64) -> Option<usize>
        ensures { result ≡ type_of_field (needs_in self.now) i }
    {
        match *self {
            Needs::Nothing => None,
            Needs::Listed(types) => type_if_there(types, i),
            Needs::Each(size, ty) => { if i < size { Some(ty) } else { None } }
            Needs::Argument(ty) => { if i == 1 { Some(ty) } else { None } }
        }
    }
}

/// Returns the type at index `i`, or `None` if the list has no such index.
fn type_if_there(types: &[usize], i: u64) -> Option<usize>
    ensures { result ≡ slice_get types.now i }
{
    if i < types.len() as u64 {
        Some(type_at(types, i as usize))
    } else {
        None
    }
}

/// Returns the type at index `k`.
fn type_at(types: &[usize], k: usize) -> usize
    requires { k < length types.now }
    ensures { slice_get types.now k ≡ Some result }
{
    types[k]
}

/// Returns the typed fields of a value at a shape, or `None` if the value does not match the shape.
pub fn needs_of<'a>(heap: &Heap, v: Val, shape: &'a ShapeOf<usize>) -> Option<Needs<'a>>
    requires { IsValue (length heap.now) v }
    ensures { option_map needs_in result ≡ fields_of heap.now v shape.now }
{
    match v {
        Val::Int(z) => nothing_if(fits_int(shape, z)),
        Val::Atom(tag) => nothing_if(fits_atom(shape, tag)),
        Val::Ref(object) => object_needs(&NumberedObject { heap, object }, shape),
    }
}

/// Returns the typed fields of an object that is known to match the shape. In many cases the shape
/// alone determines the typed fields.
#[inline(always)]
pub fn known_needs<'a>(heap: &Heap, o: u64, shape: &'a ShapeOf<usize>) -> Option<Needs<'a>>
    requires object { o < length heap.now }
    requires fits { IsSome (fields_of heap.now (vals.Ref o) shape.now) }
    ensures { option_map needs_in result ≡ fields_of heap.now (vals.Ref o) shape.now }
{
    match shape {
        ShapeOf::Product(_, types) => Some(Needs::Listed(types.as_slice())),
        ShapeOf::Sum(_, blocks) if blocks.len() == 1 => Some(first_needs(blocks.as_slice())),
        ShapeOf::Sum(_, blocks) => {
            tagged_needs(
                blocks.as_slice(),
                block_tag(&NumberedObject { heap, object: o }),
            )
        }
        ShapeOf::Bytes(_) => Some(Needs::Nothing),
        ShapeOf::Double => Some(Needs::Nothing),
        ShapeOf::FloatArray => Some(Needs::Nothing),
        ShapeOf::FlatFloats(_, _) => Some(Needs::Nothing),
        ShapeOf::Int32 => Some(Needs::Nothing),
        ShapeOf::Int64 => Some(Needs::Nothing),
        ShapeOf::Native => Some(Needs::Nothing),
        ShapeOf::Anything => Some(Needs::Nothing),
        _ => object_needs(&NumberedObject { heap, object: o }, shape),
    }
}

/// Returns the fields of the first constructor.
#[inline(always)]
fn first_needs(blocks: &[Constr<usize>]) -> Needs<'_>
    requires { 0 < length blocks.now }
    ensures { needs_in result ≡ numbered_from 0 (first_fields blocks.now) }
{
    Needs::Listed(blocks[0].fields.as_slice())
}

/// Returns the fields of the constructor with this tag.
#[inline(always)]
fn tagged_needs(blocks: &[Constr<usize>], tag: u8) -> Option<Needs<'_>>
    ensures { option_map needs_in result ≡ option_map constr_needed (slice_get blocks.now tag) }
{
    if (tag as usize) < blocks.len() {
        Some(Needs::Listed(blocks[tag as usize].fields.as_slice()))
    } else {
        None
    }
}

/// Returns the typed fields of an object at a shape, or `None` if the object does not match the
/// shape.
fn object_needs<'a>(placed: &NumberedObject<'_>, shape: &'a ShapeOf<usize>) -> Option<Needs<'a>>
    ensures { option_map needs_in result
        ≡ option_and_then (object_fields shape.now)
        (slice_get placed.now.heap.now placed.now.object) }
{
    match placed.heap.kind(placed.object) {
        Kind::Block(tag, size) => block_needs(placed, tag, size, shape),
        Kind::Bytes(_) => nothing_if(matches!(shape, ShapeOf::Bytes(_) | ShapeOf::Anything)),
        Kind::Double => nothing_if(matches!(shape, ShapeOf::Double | ShapeOf::Anything)),
        Kind::Doubles(size) => nothing_if(fits_doubles(shape, size)),
        Kind::Custom(custom) => nothing_if(fits_custom(shape, custom)),
    }
}

/// Returns no fields if the value matches, and `None` if not.
fn nothing_if<'a>(fits: bool) -> Option<Needs<'a>>
    ensures { option_map needs_in result ≡ none_if fits }
{
    if fits { Some(Needs::Nothing) } else { None }
}
