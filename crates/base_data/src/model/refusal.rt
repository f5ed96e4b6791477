//! The reasons why bytes are refused as a value.

ghost use Rattle.std.specs.Prelude.{◌≡◌};
ghost use Rattle.base_data.specs.declared.model.refusal.ReadRefusal.TheVariants as refusals;

use crate::model::Memory;
use std::alloc::{AllocError, AllocFailed};

/// The number in a header that exceeds its limit.
#[derive(Clone, Copy, Debug, PartialEq, Eq)]
pub enum StatedNumber {
    Words,
    Length,
}

/// The sum of words on 32 bits or on 64 bits.
#[derive(Clone, Copy, Debug, PartialEq, Eq)]
pub enum WordSum {
    W32,
    W64,
}

/// The reason why bytes are not a value. In a variant with an offset, the first number is the
/// offset in bytes from the header's first byte.
#[derive(Clone, Copy, Debug)]
pub enum ReadRefusal {
    /// The first four bytes are no magic number. The number encodes the four bytes.
    BadMagic(u32),
    /// The magic number is that of compressed data.
    Compressed,
    /// A number in the header is too large. The fields state which number, its value, and the
    /// limit.
    TooLarge(StatedNumber, u64, u64),
    /// A code does not begin a token. The fields are the offset and the code.
    BadCode(u64, u8),
    /// A code is that of a code pointer or an infix pointer. The fields are the offset and the
    /// code.
    PointerCode(u64, u8),
    /// A custom block has a kind that omarshal does not read. The fields are the offset and the
    /// code.
    OtherCustom(u64, u8),
    /// A block has a tag above 243. The fields are the offset and the tag.
    BadTag(u64, u8),
    /// A reference leads to no earlier object. The fields are the offset in bytes, the reference's
    /// offset, and the number of objects before the reference.
    BadShared(u64, u64, u64),
    /// A reference occurs in a value whose header counts no objects.
    NoTable(u64),
    /// The kind byte of a `Nativeint` is invalid. The fields are the offset and the byte.
    BadNative(u64, u8),
    /// An integer does not fit 63 bits. The fields are the offset and the integer.
    IntRange(u64, i64),
    /// A double array has no elements.
    ZeroArray(u64),
    /// A token needs more than the data bytes that are left. The fields are the offset, the number
    /// needed, and the number left.
    Overlong(u64, u128, u64),
    /// A sum of words differs from the header. The fields are the offset, the kind of sum, the
    /// header's number, and the sum.
    SizeMismatch(u64, WordSum, u64, u64),
    /// The number of objects differs from the header. The fields are the offset, the header's
    /// number, and the number of objects found.
    CountMismatch(u64, u64, u64),
    /// Data bytes are left after the value. The fields are the offset and the number of bytes left.
    LengthMismatch(u64, u64),
    /// An allocation failed.
    Memory,
}

impl From<Memory> for ReadRefusal {
    ghost from_gives = { λ _ e. e ≡ refusals.Memory };

    fn from(_: Memory) -> ReadRefusal {
        ReadRefusal::Memory
    }
}

impl From<AllocError> for ReadRefusal {
    ghost from_gives = { λ _ e. e ≡ refusals.Memory };

    fn from(_e: AllocError) -> ReadRefusal {
        ReadRefusal::Memory
    }
}

impl<T: Drop> From<AllocFailed<T>> for ReadRefusal {
    ghost from_gives = { λ _ e. e ≡ refusals.Memory };

    fn from(_e: AllocFailed<T>) -> ReadRefusal {
        ReadRefusal::Memory
    }
}
