//! The lexemes of declarations, types and literals, and the lexical faults.

ghost use Rattle.std.specs.Prelude.{◌≡◌};
ghost use Rattle.types_lex.specs.declared.lexeme.LexFault.TheVariants as faults;

use base_data::model::list::List;
use std::alloc::{AllocError, AllocFailed};

/// A reserved word, such as `type`.
#[derive(Clone, Copy)]
pub enum Keyword {
    Type,
    And,
    Of,
    Mutable,
}

/// The suffix of an integer: none, `l`, `L` or `n`.
#[derive(Clone, Copy)]
pub enum Suffix {
    Absent,
    Int32,
    Int64,
    Native,
}

/// An integer as written in a text. The integer `-0` differs from `0`.
#[derive(Clone, Copy)]
pub struct Integer {
    pub minus: bool,
    pub value: i64,
    pub suffix: Suffix,
}

/// A symbol of one or two bytes.
#[derive(Clone, Copy)]
pub enum Symbol {
    OpenArray,
    CloseArray,
    DoubleSemicolon,
    DoubleColon,
    OpenParen,
    CloseParen,
    OpenBrace,
    CloseBrace,
    OpenBracket,
    CloseBracket,
    Bar,
    Comma,
    Semicolon,
    Colon,
    Equals,
    Star,
    Dot,
    Hash,
}

/// The kind of a lexeme with the value of the lexeme. The name of a tag does not include the
/// backquote, and the name of a variable does not include the quote.
#[derive(Drop)]
pub enum LexemeKind {
    Keyword(Keyword),
    Lower(List<u8>),
    Upper(List<u8>),
    Tag(List<u8>),
    Variable(List<u8>),
    Character(u8),
    Integer(Integer),
    Text(List<u8>),
    Double(u64),
    Symbol(Symbol),
}

/// The location of a lexeme: the position of the first byte, and the length in bytes.
#[derive(Clone, Copy)]
pub struct LexemeSpan {
    pub first: usize,
    pub len: usize,
}

/// A lexeme with its location in the text.
#[derive(Drop)]
pub struct Lexeme {
    pub kind: LexemeKind,
    pub span: LexemeSpan,
}

/// The first fault of a text from the left, with its position in bytes.
#[derive(Clone, Copy)]
pub enum LexFault {
    /// At this position, no lexeme begins or the escape in a string is invalid.
    BadByte(usize),
    /// The string that begins at this position has no closing quote on its line.
    OpenString(usize),
    /// The comment that begins at this position does not end.
    OpenComment(usize),
    /// The integer that begins at this position does not fit in 64 bits.
    TooBig(usize),
    /// Memory ran out.
    Memory,
}

impl From<AllocError> for LexFault {
    ghost from_gives = { λ _ e. e ≡ faults.Memory };

    fn from(_e: AllocError) -> LexFault {
        LexFault::Memory
    }
}

impl<T: Drop> From<AllocFailed<T>> for LexFault {
    ghost from_gives = { λ _ e. e ≡ faults.Memory };

    fn from(_e: AllocFailed<T>) -> LexFault {
        LexFault::Memory
    }
}
