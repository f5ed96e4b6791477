//! Lexes symbols of one or two bytes.

ghost use Rattle.std.specs.Prelude.{◌≡◌};
ghost use Rattle.types_lex.specs.Lexer.{pair_symbol, single_symbol, pair_at, symbol_form, found_at};
ghost use Rattle.types_lex.specs.LexText.{Answers};

use crate::found_lexeme::FoundLexeme;
use crate::lexeme::{LexFault, LexemeKind, Symbol};

/// Returns the symbol that two bytes form, or `None` if the bytes form no symbol.
#[tactic(auto, unfolding(crate::specs::Lexer::pair_symbol))]
#[inline(always)]
fn pair_symbol(first: u8, second: u8) -> Option<Symbol>
    ensures { result ≡ pair_symbol first second }
{
    if first == b'[' && second == b'|' {
        Some(Symbol::OpenArray)
    } else if first == b'|' && second == b']' {
        Some(Symbol::CloseArray)
    } else if first == b';' && second == b';' {
        Some(Symbol::DoubleSemicolon)
    } else if first == b':' && second == b':' {
        Some(Symbol::DoubleColon)
    } else {
        None
    }
}

/// Returns the symbol that one byte forms, or `None` if the byte forms no symbol.
#[tactic(auto, unfolding(crate::specs::Lexer::single_symbol))]
#[inline(always)]
fn single_symbol(byte: u8) -> Option<Symbol>
    ensures { result ≡ single_symbol byte }
{
    match byte {
        b'(' => Some(Symbol::OpenParen),
        b')' => Some(Symbol::CloseParen),
        b'{' => Some(Symbol::OpenBrace),
        b'}' => Some(Symbol::CloseBrace),
        b'[' => Some(Symbol::OpenBracket),
        b']' => Some(Symbol::CloseBracket),
        b'|' => Some(Symbol::Bar),
        b',' => Some(Symbol::Comma),
        b';' => Some(Symbol::Semicolon),
        b':' => Some(Symbol::Colon),
        b'=' => Some(Symbol::Equals),
        b'*' => Some(Symbol::Star),
        b'.' => Some(Symbol::Dot),
        b'#' => Some(Symbol::Hash),
        _ => None,
    }
}

/// Returns the symbol that `first` and the first byte of `rest` form. If `rest` is empty, returns
/// `None`.
#[tactic(auto, unfolding(crate::specs::Lexer::pair_at))]
#[inline(always)]
fn pair_at(first: u8, rest: &[u8]) -> Option<Symbol>
    ensures { result ≡ pair_at first rest.now }
{
    match rest {
        [] => None,
        [second, ..] => pair_symbol(first, *second),
    }
}

/// Lexes the symbol that begins with the byte `first`. A symbol of two bytes is preferred.
#[tactic(auto, unfolding(crate::specs::Lexer::symbol_form))]
#[inline(always)]
pub fn symbol(first: u8, rest: &[u8]) -> Result<FoundLexeme, LexFault>
    ensures { Answers (λ w. w) result (found_at (symbol_form first rest.now)) }
{
    match pair_at(first, rest) {
        Some(symbol) => Ok(FoundLexeme {
            kind: LexemeKind::Symbol(symbol),
            len: 2,
        }),
        None => match single_symbol(first) {
            Some(symbol) => Ok(FoundLexeme {
                kind: LexemeKind::Symbol(symbol),
                len: 1,
            }),
            None => Err(LexFault::BadByte(0)),
        },
    }
}
