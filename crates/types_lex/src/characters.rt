//! Character and string literals.

ghost use Rattle.std.specs.Prelude.{◌≡◌, ◌≤◌, ◌+◌, drop, length, IfOk};
ghost use Rattle.std.specs.List.{prefix_len};
ghost use Rattle.types_lex.specs.Lexeme.{named_char, is_plain};
ghost use Rattle.types_lex.specs.LexText.{Answers};
ghost use Rattle.types_lex.specs.Lexer.{hexadecimal_at, decimal_at, escape_at, char_at, char_found};
ghost use Rattle.types_lex.specs.Lexer.{quote_form, string_at, found_at, TakesPlain};

use crate::character_classes::{digit_value, plain_len};
use crate::found_lexeme::FoundLexeme;
use crate::lexeme::{LexFault, LexemeKind};
use crate::name_lexer::variable;
use base_data::model::list::List;
use std::alloc::{AllocError, Global};

/// Returns the byte that a backslash followed by `b` represents.
fn named_char(b: u8) -> Option<u8>
    ensures { result ≡ named_char b }
{
    match b {
        b'\\' | b'"' | b'\'' | b' ' => Some(b),
        b'n' => Some(b'\n'),
        b't' => Some(b'\t'),
        b'b' => Some(8),
        b'r' => Some(b'\r'),
        _ => None,
    }
}

/// Decodes two hexadecimal digits that follow a backslash and an `x`. Returns the byte and the
/// length of the whole escape in bytes.
#[tactic(auto, unfolding(crate::specs::Lexer::hexadecimal_at))]
fn hexadecimal_at(text: &[u8]) -> Option<(u8, usize)>
    ensures { result ≡ char_found (hexadecimal_at text.now) }
{
    let [high, low, ..] = text else {
        return None;
    };
    if high.is_ascii_hexdigit() && low.is_ascii_hexdigit() {
        Some((16 * digit_value(*high) + digit_value(*low), 4))
    } else {
        None
    }
}

/// Decodes three decimal digits that follow a backslash. Returns the byte and the length of the
/// whole escape in bytes.
#[tactic(auto, unfolding(crate::specs::Lexer::decimal_at))]
fn decimal_at(text: &[u8]) -> Option<(u8, usize)>
    ensures { result ≡ char_found (decimal_at text.now) }
{
    let [a, b, c, ..] = text else {
        return None;
    };
    if !(a.is_ascii_digit() && b.is_ascii_digit() && c.is_ascii_digit()) {
        return None;
    }
    let value = 100 * u16::from(*a - b'0') + 10 * u16::from(*b - b'0') + u16::from(*c - b'0');
    if value <= 255 {
        Some((value as u8, 4))
    } else {
        None
    }
}

/// Decodes the escape whose backslash precedes the text. Returns the byte and the length of the
/// whole escape in bytes.
#[tactic(auto, unfolding(crate::specs::Lexer::escape_at))]
fn escape_at(text: &[u8]) -> Option<(u8, usize)>
    ensures { result ≡ char_found (escape_at text.now) }
{
    let [first, rest @ ..] = text else {
        return None;
    };
    match named_char(*first) {
        Some(value) => Some((value, 2)),
        None => {
            if *first == b'x' {
                hexadecimal_at(rest)
            } else {
                decimal_at(text)
            }
        }
    }
}

/// Decodes the character at the start of the text, inside quotes `quote`. Returns the byte that the
/// character represents and the character's length in bytes.
#[tactic(auto, unfolding(crate::specs::Lexer::char_at))]
pub(crate) fn char_at(quote: u8, text: &[u8]) -> Option<(u8, usize)>
    ensures { result ≡ char_found (char_at quote text.now) }
{
    let [first, rest @ ..] = text else {
        return None;
    };
    if *first == b'\\' {
        escape_at(rest)
    } else if *first == quote || *first == b'\n' {
        None
    } else {
        Some((*first, 1))
    }
}

/// Lexes the character or type variable whose quote precedes the text. A text that may be a
/// character or a type variable is a character.
#[tactic(auto, unfolding(crate::specs::Lexer::quote_form, crate::specs::Lexer::character_form))]
pub fn quoted(alloc: Global, text: &[u8]) -> Result<FoundLexeme, LexFault>
    ensures { Answers (λ w. w) result (found_at (quote_form text.now)) }
{
    if let Some((value, len)) = char_at(b'\'', text) {
        if len < text.len() && text[len] == b'\'' {
            return Ok(FoundLexeme {
                kind: LexemeKind::Character(value),
                len: len + 2,
            });
        }
    }
    variable(alloc, text)
}

/// Returns the position of the first byte from `at` on that does not represent itself in a string.
pub(crate) fn plain_end(text: &[u8], at: usize) -> usize
    requires { at ≤ length text.now }
    ensures { result ≡ at + prefix_len is_plain (drop at text.now) }
{
    at + plain_len(&text[at..])
}

/// Appends the bytes from `at` on up to the first byte that does not represent itself in a string.
/// Returns the position after the appended bytes.
fn take_plain(value: &mut Vec<u8>, text: &[u8], at: usize) -> Result<usize, AllocError>
    requires { at ≤ length text.now }
    ensures { IfOk result (λ end. TakesPlain text.now at value.old.items end value.new.items) }
{
    let rest = &text[at..];
    let count = plain_len(rest);
    value.extend_from_slice(&rest[..count])?;
    Ok(at + count)
}

/// Lexes the string whose opening quote precedes the text.
pub fn string(alloc: Global, text: &[u8]) -> Result<FoundLexeme, LexFault>
    ensures { Answers (λ w. w) result (string_at text.now) }
{
    let mut value = Vec::new(alloc);
    let mut at = take_plain(&mut value, text, 0)?;
    while let Some((byte, len)) = char_at(b'"', &text[at..]) {
        value.push(byte)?;
        at = take_plain(&mut value, text, at + len)?;
    }
    if at >= text.len() {
        return Err(LexFault::OpenString(0));
    }
    let end = text[at];
    if end == b'"' {
        Ok(FoundLexeme {
            kind: LexemeKind::Text(List::of(value)),
            len: at + 2,
        })
    } else if end == b'\\' {
        Err(LexFault::BadByte(at + 2))
    } else {
        Err(LexFault::OpenString(0))
    }
}
