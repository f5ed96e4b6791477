//! The reasons why no token begins with some bytes.

use base_data::model::code::CodeFault;

/// The reason why bytes encode no token, although as many bytes are present as their sizes require
/// (`intern.c`).
#[derive(Clone, Copy)]
pub enum TokenFault {
    /// The code begins no token.
    Code(CodeFault),
    /// An integer of eight bytes that does not fit 63 bits.
    Integer(i64),
    /// A header word with this tag, which is greater than 243.
    Tag(u8),
    /// An array of doubles without elements.
    Empty,
    /// The identifier of a custom block that is not supported.
    Identifier,
    /// The kind byte of a `Nativeint`, which is neither 1 nor 2.
    Native(u8),
}
