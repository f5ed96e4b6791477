//! The number of a lexeme.

ghost use Rattle.std.specs.Prelude.{◌≡◌};
ghost use Rattle.types_parse.specs.grammar.LexemeKinds.{number_of};

use types_lex::lexeme::{Integer, LexemeKind, Suffix};

/// Returns the number of a lexeme, or `None` if the lexeme is no integer, or has a sign or a
/// suffix.
pub fn number_of(kind: &LexemeKind) -> Option<u64>
    ensures { result ≡ number_of kind.now }
{
    let LexemeKind::Integer(integer) = kind else {
        return None;
    };
    let Integer {
        minus,
        value,
        suffix,
    } = *integer;
    match suffix {
        Suffix::Absent => {
            if minus || value < 0 {
                None
            } else {
                Some(value as u64)
            }
        }
        _ => None,
    }
}
