//! Tests a token against an expected type.

ghost use Rattle.std.specs.Prelude.{◌≡◌};
ghost use Rattle.types_spec.specs.types.Fitting as fitting;
ghost use Rattle.marshal_spec.specs.format.Token.{Token};
ghost use Rattle.types_table.specs.type_table.Made.{table_of};
ghost use Rattle.check_stream.specs.mismatch_search.Judge.{IsApt, IsJudged, has_custom};
ghost use Rattle.marshal_codec.specs.token.Summary.{IsSummary};
ghost use Rattle.check_stream.specs.mismatch_search.Judge.{judged_by};

use crate::checker::BlockPositions;
use crate::checker::token_fits::{positions_at, shape_of};
use base_data::model::code::CustomKind;
use marshal_codec::token::Summary;
use types_spec::types::shape::ShapeOf;
use types_table::leaf_fits::{fits_atom, fits_doubles, fits_int};
use types_table::type_table::TypeTable;

/// The result of testing a token against an expected type.
#[derive(Clone, Copy)]
pub enum TokenJudgement<'a> {
    /// The token matches the type and has no fields.
    Fits,
    /// The token is a block that matches the type, and the block's fields have these expected
    /// types.
    Opens(BlockPositions<'a>),
    /// The token is a reference with this offset.
    Back(u64),
    /// The token does not match the type.
    Misses,
    /// The test cannot decide whether the token matches the type.
    Unknown,
}

/// Returns true if a string matches the shape.
fn fits_bytes(shape: &ShapeOf<usize>) -> bool
    ensures { result ≡ fitting.is_bytes shape.now }
{
    match shape {
        ShapeOf::Bytes(_) => true,
        ShapeOf::Anything => true,
        _ => false,
    }
}

/// Returns true if a double matches the shape.
fn fits_double(shape: &ShapeOf<usize>) -> bool
    ensures { result ≡ fitting.is_double shape.now }
{
    match shape {
        ShapeOf::Double => true,
        ShapeOf::Anything => true,
        _ => false,
    }
}

/// Returns true if an `int32` matches the shape.
fn fits_int32(shape: &ShapeOf<usize>) -> bool
    ensures { result ≡ fitting.is_int32 shape.now }
{
    match shape {
        ShapeOf::Int32 => true,
        ShapeOf::Anything => true,
        _ => false,
    }
}

/// Returns true if an `int64` matches the shape.
fn fits_int64(shape: &ShapeOf<usize>) -> bool
    ensures { result ≡ fitting.is_int64 shape.now }
{
    match shape {
        ShapeOf::Int64 => true,
        ShapeOf::Anything => true,
        _ => false,
    }
}

/// Returns true if a `nativeint` matches the shape.
fn fits_native(shape: &ShapeOf<usize>) -> bool
    ensures { result ≡ fitting.is_native shape.now }
{
    match shape {
        ShapeOf::Native => true,
        ShapeOf::Anything => true,
        _ => false,
    }
}

/// Returns true if a custom of this kind matches the shape.
fn fits_custom(shape: &ShapeOf<usize>, kind: CustomKind) -> bool
    ensures { result ≡ has_custom shape.now kind }
{
    match kind {
        CustomKind::Int32 => fits_int32(shape),
        CustomKind::Int64 => fits_int64(shape),
        CustomKind::Native => fits_native(shape),
    }
}

/// Returns `Fits` if the token matches the type, and `Misses` if the token does not match the type.
fn by<'a>(fits: bool) -> TokenJudgement<'a>
    ensures { result ≡ judged_by fits }
{
    if fits {
        TokenJudgement::Fits
    } else {
        TokenJudgement::Misses
    }
}

/// Tests the token with this summary against the type `ty` of the table.
#[inline(always)]
pub fn judge<'a>(table: &'a TypeTable, ty: usize, summary: Summary) -> TokenJudgement<'a>
    ensures apt { IsApt summary result }
    ensures judged { (token : Token) → IsSummary summary token
        → IsJudged (table_of table.now) ty token result }
{
    let Some(shape) = shape_of(table, ty) else {
        return TokenJudgement::Unknown;
    };
    match summary {
        Summary::Integer(z) => by(fits_int(shape, z)),
        Summary::Atom(tag) => by(fits_atom(shape, tag)),
        Summary::Shared(offset) => TokenJudgement::Back(offset),
        Summary::Block(tag, size) => match positions_at(shape, ty, tag, size) {
            Some(positions) => TokenJudgement::Opens(positions),
            None => TokenJudgement::Misses,
        },
        Summary::Bytes(_) => by(fits_bytes(shape)),
        Summary::Double => by(fits_double(shape)),
        Summary::Doubles(size) => by(fits_doubles(shape, size)),
        Summary::Custom(kind) => by(fits_custom(shape, kind)),
    }
}
