//! Reasons why bytes are not a value, with numbers as large as in the definitions.

ghost use Rattle.std.specs.Prelude.{◌≡◌, ◌<◌, ◌^◌, ◌↔◌, IfSome, IsSome, IsTrue};
ghost use Rattle.test_oracles.specs.Refusal.{refusal_of, IsNarrow};

use base_data::model::refusal::{ReadRefusal, StatedNumber, WordSum};
use std::fmt;

/// A refusal. For most variants the first number is the offset in bytes.
#[derive(Clone, Copy)]
pub enum Refusal {
    /// The first four bytes are not a known magic number.
    BadMagic(u64),
    /// The magic number is that of compressed data.
    Compressed,
    /// The header states a number above the limit. The fields are which number, the number, and the
    /// limit.
    TooLarge(StatedNumber, u64, u64),
    /// The code begins no token.
    BadCode(u128, u8),
    /// The code is that of a code pointer or an infix pointer.
    PointerCode(u128, u8),
    /// The custom value is of an unsupported type.
    OtherCustom(u128, u8),
    /// The tag of a block is above 243.
    BadTag(u128, u8),
    /// The offset of a reference is invalid. The fields after the position are the offset, and the
    /// number of objects so far.
    BadShared(u128, u64, u128),
    /// There is a reference, but the header states that there are no objects.
    NoTable(u128),
    /// The kind byte of a `Nativeint` is unknown.
    BadNative(u128, u8),
    /// The integer has more than 63 bits.
    IntRange(u128, i64),
    /// A double array has no elements.
    ZeroArray(u128),
    /// The data is too short. The fields after the position are the number of bytes needed, and the
    /// number of data bytes left.
    Overlong(u128, u128, u128),
    /// A sum of words differs from the header. The fields after the position are which sum, the
    /// number in the header, and the sum.
    SizeMismatch(u128, WordSum, u64, u128),
    /// The number of objects differs from the header. The fields after the position are the number
    /// in the header, and the number of objects.
    CountMismatch(u128, u64, u128),
    /// Data bytes are left after the value. The field after the position is the number of these
    /// bytes.
    LengthMismatch(u128, u128),
}

impl fmt::Debug for Refusal {
    fn fmt<W: fmt::Write>(&self, f: &mut fmt::Formatter<W>) -> fmt::Result {
        match self.narrow() {
            Some(refusal) => write!(f, "{refusal:?}"),
            None => f.write_str("a number of more than 64 bits"),
        }
    }
}

impl Refusal {
    /// Returns the refusal with the number types of a reader, if the refusal's numbers fit these
    /// types.
    pub fn narrow(self) -> Option<ReadRefusal>
        ensures same { IfSome result (λ refusal. refusal ≡ refusal_of self) }
        ensures fits { IsSome result ↔ IsNarrow self }
    {
        if !is_narrow(self) {
            return None;
        }
        Some(match self {
            Refusal::BadMagic(magic) => ReadRefusal::BadMagic(magic as u32),
            Refusal::Compressed => ReadRefusal::Compressed,
            Refusal::TooLarge(what, stated, limit) => ReadRefusal::TooLarge(what, stated, limit),
            Refusal::BadCode(position, code) => ReadRefusal::BadCode(position as u64, code),
            Refusal::PointerCode(position, code) => ReadRefusal::PointerCode(position as u64, code),
            Refusal::OtherCustom(position, code) => ReadRefusal::OtherCustom(position as u64, code),
            Refusal::BadTag(position, tag) => ReadRefusal::BadTag(position as u64, tag),
            Refusal::BadShared(position, offset, found) => {
                ReadRefusal::BadShared(position as u64, offset, found as u64)
            }
            Refusal::NoTable(position) => ReadRefusal::NoTable(position as u64),
            Refusal::BadNative(position, kind) => ReadRefusal::BadNative(position as u64, kind),
            Refusal::IntRange(position, value) => ReadRefusal::IntRange(position as u64, value),
            Refusal::ZeroArray(position) => ReadRefusal::ZeroArray(position as u64),
            Refusal::Overlong(position, need, left) => {
                ReadRefusal::Overlong(position as u64, need, left as u64)
            }
            Refusal::SizeMismatch(position, sum, stated, found) => {
                ReadRefusal::SizeMismatch(position as u64, sum, stated, found as u64)
            }
            Refusal::CountMismatch(position, stated, found) => {
                ReadRefusal::CountMismatch(position as u64, stated, found as u64)
            }
            Refusal::LengthMismatch(position, left) => {
                ReadRefusal::LengthMismatch(position as u64, left as u64)
            }
        })
    }
}

/// Returns true if the numbers of the refusal fit the number types of a reader.
fn is_narrow(refusal: Refusal) -> bool
    ensures { IsTrue result ↔ IsNarrow refusal }
{
    match refusal {
        Refusal::BadMagic(magic) => magic < 1 << 32,
        Refusal::Compressed => true,
        Refusal::TooLarge(_, _, _) => true,
        Refusal::BadCode(position, _) => is_small(position),
        Refusal::PointerCode(position, _) => is_small(position),
        Refusal::OtherCustom(position, _) => is_small(position),
        Refusal::BadTag(position, _) => is_small(position),
        Refusal::BadShared(position, _, found) => is_small(position) && is_small(found),
        Refusal::NoTable(position) => is_small(position),
        Refusal::BadNative(position, _) => is_small(position),
        Refusal::IntRange(position, _) => is_small(position),
        Refusal::ZeroArray(position) => is_small(position),
        Refusal::Overlong(position, _, left) => is_small(position) && is_small(left),
        Refusal::SizeMismatch(position, _, _, found) => is_small(position) && is_small(found),
        Refusal::CountMismatch(position, _, found) => is_small(position) && is_small(found),
        Refusal::LengthMismatch(position, left) => is_small(position) && is_small(left),
    }
}

/// Returns true if the number fits into 64 bits.
fn is_small(number: u128) -> bool
    ensures { IsTrue result ↔ (number < 2 ^ 64) }
{
    number < 1 << 64
}
