//! The summary of a token.

ghost use Rattle.std.specs.Prelude.{◌≡◌, IfSome};
ghost use Rattle.marshal_codec.specs.headers.Counting.{IsCountable};
ghost use Rattle.std.specs.Bool.{OnTrue};
ghost use Rattle.marshal_codec.specs.token.Summary.{IsFair, HasFewFields, custom_measure};
ghost use Rattle.marshal_codec.specs.token.Summary.{summary_fields, summary_measure};

use base_data::model::code::{CustomKind, Measure};

/// The summary of a token. For an object without fields, the summary contains only what the
/// object's type and number of words depend on.
#[derive(Clone, Copy)]
pub enum Summary {
    Integer(i64),
    Atom(u8),
    Shared(u64),
    /// A block with its tag and its number of fields.
    Block(u8, u64),
    /// A string with its length in bytes.
    Bytes(u64),
    Double,
    /// An array of doubles with their number.
    Doubles(u64),
    Custom(CustomKind),
}

/// Returns the number of fields of the token.
#[inline(always)]
pub fn fields_of(summary: Summary) -> u64
    ensures { result ≡ summary_fields summary }
{
    match summary {
        Summary::Block(_, size) => size,
        _ => 0,
    }
}

/// Returns true if the size of the token's object can be counted: a string or an array has fewer
/// than 2^60 elements.
#[inline(always)]
pub fn is_countable(summary: Summary) -> bool
    requires { HasFewFields summary }
    ensures { OnTrue result (IsFair summary) }
{
    match summary {
        Summary::Bytes(size) => size < 1 << 60,
        Summary::Doubles(count) => count < 1 << 60,
        _ => true,
    }
}

/// Returns the measure of a custom block.
fn custom_measure(kind: CustomKind) -> Measure
    ensures measured { result ≡ custom_measure kind }
    ensures countable { IsCountable result }
{
    match kind {
        CustomKind::Int32 => Measure::Custom(4, 4),
        CustomKind::Int64 => Measure::Custom(8, 8),
        CustomKind::Native => Measure::Custom(4, 8),
    }
}

/// Returns the measure of the object that the token makes, or `None` if the token makes no object.
#[inline(always)]
pub fn measure_of(summary: Summary) -> Option<Measure>
    requires { IsFair summary }
    ensures measured { result ≡ summary_measure summary }
    ensures countable { IfSome result (λ measure. IsCountable measure) }
{
    match summary {
        Summary::Integer(_) => None,
        Summary::Atom(_) => None,
        Summary::Shared(_) => None,
        Summary::Block(_, size) => Some(Measure::Block(size)),
        Summary::Bytes(size) => Some(Measure::Bytes(size)),
        Summary::Double => Some(Measure::Double),
        Summary::Doubles(count) => Some(Measure::Doubles(count)),
        Summary::Custom(kind) => Some(custom_measure(kind)),
    }
}
