//! Errors of reading a text as a value of a type.

ghost use Rattle.std.specs.Prelude.{◌≡◌};
ghost use Rattle.text_literal.specs.declared.parser.literal_fault.LiteralFault.TheVariants as faults;

use base_data::model::Memory;

/// An error of reading lexemes as a value of a type. Each position is the byte offset of the first
/// byte of a lexeme, or the end of the text.
#[derive(Clone, Copy)]
pub enum LiteralFault {
    /// Syntax error: no literal continues with the lexeme, or ends with the text, at this offset.
    Syntax(u64),
    /// Type mismatch: the part that begins at this offset does not have the type with this index.
    Mismatch(u64, usize),
    /// The integer at this offset is out of the range of its type.
    IntRange(u64),
    /// The label at this `#` has a wrong number, is used before its definition, or labels a value
    /// that is not an object.
    Label(u64),
    /// Memory ran out.
    Memory,
}

impl From<Memory> for LiteralFault {
    ghost from_gives = { λ _ e. e ≡ faults.Memory };

    fn from(_e: Memory) -> LiteralFault {
        LiteralFault::Memory
    }
}
