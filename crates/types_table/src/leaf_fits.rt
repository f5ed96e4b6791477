//! Tests of integers, atoms and arrays of doubles against a shape.

ghost use Rattle.std.specs.Prelude.{◌≡◌, option_map};
ghost use Rattle.types_spec.specs.types.Fitting as fitting;
ghost use Rattle.types_spec.specs.types.Fitting.{tag_with};

use types_spec::types::shape::{PolyTag, ShapeOf};

/// Returns true if an integer matches the shape.
#[inline(always)]
pub fn fits_int(shape: &ShapeOf<usize>, z: i64) -> bool
    ensures { result ≡ fitting.fits_int shape.now z }
{
    match shape {
        ShapeOf::AnyInt => true,
        ShapeOf::Below(limit) => is_below(*limit, z),
        ShapeOf::Sum(constants, _) => is_below(*constants, z),
        ShapeOf::Poly(tags) => match tag_of_hash(tags.as_slice(), z) {
            Some(tag) => tag.arg.is_none(),
            None => false,
        },
        ShapeOf::Anything => true,
        _ => false,
    }
}

/// Returns true if an integer is at least 0 and less than the limit.
#[inline(always)]
pub fn is_below(limit: u64, z: i64) -> bool
    ensures { result ≡ fitting.is_below limit z }
{
    z >= 0 && (z as u64) < limit
}

/// Returns the tag with this hash.
pub fn tag_of_hash(tags: &[PolyTag<usize>], hash: i64) -> Option<&PolyTag<usize>>
    ensures { option_map (λ tag. tag.now) result ≡ tag_with tags.now hash }
{
    tags.iter().find(|tag| is_hash(tag.hash, hash))
}

/// Returns true if a tag has this hash.
fn is_hash(own: i64, hash: i64) -> bool
    ensures { result ≡ fitting.is_number own hash }
{
    own == hash
}

/// Returns true if an atom (a block without fields) matches the shape.
pub fn fits_atom(shape: &ShapeOf<usize>, tag: u8) -> bool
    ensures { result ≡ fitting.fits_atom shape.now tag }
{
    match shape {
        ShapeOf::ArrayOf(_) => tag == 0,
        ShapeOf::FloatArray => tag == 0,
        ShapeOf::ArrayOfVariable => tag == 0,
        ShapeOf::ArrayOfAnything(_) => tag == 0,
        ShapeOf::Anything => true,
        _ => false,
    }
}

/// Returns true if an array of `size` doubles matches the shape.
pub fn fits_doubles(shape: &ShapeOf<usize>, size: u64) -> bool
    ensures { result ≡ fitting.has_doubles shape.now size }
{
    match shape {
        ShapeOf::FloatArray => true,
        ShapeOf::FlatFloats(_, fields) => *fields == size,
        ShapeOf::ArrayOfAnything(_) => true,
        ShapeOf::Anything => true,
        _ => false,
    }
}
