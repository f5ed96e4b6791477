//! The errors of the parsers.

ghost use Rattle.std.specs.Prelude.{◌≡◌};
ghost use Rattle.types_parse.specs.parse.Parsed.{byte_of};
ghost use Rattle.types_parse.specs.declared.parse.refused.ParseFault.TheVariants as faults;

use base_data::model::Memory;
use types_lex::lexeme::Lexeme;

/// An error of a parser, with the index of the lexeme at which the error is.
#[derive(Clone, Copy)]
pub enum ParseFault {
    /// Syntax error: the index of the first lexeme at which no text of the grammar continues. If
    /// the lexemes end too early, the index is the number of lexemes.
    Syntax(usize),
    /// The index of the first lexeme at which a type of depth above 200 ends, or at which the 201st
    /// bracket opens.
    TooDeep(usize),
    /// Memory ran out.
    Memory,
}

impl From<Memory> for ParseFault {
    ghost from_gives = { λ _ e. e ≡ faults.Memory };

    fn from(_e: Memory) -> ParseFault {
        ParseFault::Memory
    }
}

/// Returns the byte offset at which the lexeme with index `position` begins. If no lexeme has this
/// index, returns `end`, which is the length of the text in bytes.
pub fn byte_of(lexemes: &[Lexeme], end: usize, position: usize) -> usize
    ensures { result ≡ byte_of lexemes.now end position }
{
    match lexemes.get(position) {
        Some(lexeme) => lexeme.span.first,
        None => end,
    }
}
