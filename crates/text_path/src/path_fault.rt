//! The errors of a path's text.

ghost use Rattle.std.specs.Prelude.{◌≡◌};
ghost use Rattle.text_path.specs.ParserAnswer.{fault_of_lexer};
ghost use Rattle.text_path.specs.declared.path_fault.PathFault.TheVariants as faults;

use base_data::model::Memory;
use types_lex::lexeme::LexFault;

/// An error in the text of a path.
#[derive(Clone, Copy)]
pub enum PathFault {
    /// Lexical error.
    Lex,
    /// Syntax error: the byte offset of the first lexeme at which no path continues, or the length
    /// of the text.
    Syntax(usize),
    /// Out of memory.
    Memory,
}

impl From<Memory> for PathFault {
    ghost from_gives = { λ _ e. e ≡ faults.Memory };

    fn from(_e: Memory) -> PathFault {
        PathFault::Memory
    }
}

/// Returns the error of a path for a lexical error.
pub fn lexer_fault(fault: LexFault) -> PathFault
    ensures { result ≡ fault_of_lexer fault }
{
    match fault {
        LexFault::Memory => PathFault::Memory,
        _ => PathFault::Lex,
    }
}
