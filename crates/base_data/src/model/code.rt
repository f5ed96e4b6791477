//! Kinds of tokens and of custom blocks (`intext.h`). The first byte of a token is its code, and
//! the code determines the kind.

/// The kind of a token, which the token's code determines. If the code contains the value, then the
/// number of a variant is the value. If the code does not contain the value, then the number is the
/// width in bytes of what follows the code: a number, a header word or a length. A `bool` is true
/// for little endian, except in `Custom`.
#[derive(Clone, Copy)]
pub enum CodeKind {
    /// A block or an atom whose tag and size are bits of the code.
    SmallBlock(u8, u8),
    /// An integer from 0 to 63, encoded in the low six bits of the code.
    SmallInt(u8),
    /// A string of up to 31 bytes, whose length is encoded in the low five bits of the code.
    SmallString(u8),
    /// A signed integer, with the width of the integer in bytes.
    Int(u8),
    /// A reference, with the width of the reference's offset in bytes.
    Shared(u8),
    /// A block or an atom, with the width of the header word in bytes.
    Block(u8),
    /// A string, with the width of the string's length in bytes.
    Str(u8),
    /// A double of eight bytes. The `bool` is true for little endian.
    Double(bool),
    /// An array of doubles, with the width of the array's length in bytes. The `bool` is true for
    /// little endian.
    Doubles(u8, bool),
    /// A custom block of fixed length, whose identifier follows the code. The `bool` is true for
    /// the code that old runtimes wrote.
    Custom(bool),
}

/// The reason why a code does not begin a token.
#[derive(Clone, Copy)]
pub enum CodeFault {
    BadCode,
    PointerCode,
    CustomLen,
}

/// The custom blocks that omarshal reads. The identifier of a block determines the kind.
#[derive(Clone, Copy, PartialEq, Eq)]
pub enum CustomKind {
    Int32,
    Int64,
    Native,
}

/// The value of a custom block.
#[derive(Clone, Copy, Debug, PartialEq, Eq)]
pub enum Custom {
    I32(i32),
    I64(i64),
    Native(i64),
}

/// The size of an object: for a block the number of fields, for a string the number of bytes, and
/// for a double array the number of elements. The size of a custom block is the size of its data in
/// bytes, on 32 and on 64 bits.
#[derive(Clone, Copy)]
pub enum Measure {
    Block(u64),
    Bytes(u64),
    Double,
    Doubles(u64),
    Custom(u64, u64),
}
