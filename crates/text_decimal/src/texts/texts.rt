//! Texts with doubles as decimals.

ghost use Rattle.std.specs.Prelude.{◌≡◌, ◌≤◌, ◌+◌, ◌++◌, true, length, OnOk};
ghost use Rattle.std.specs.Str.{bytes_eq};
ghost use Rattle.text_print.specs.leaves.LeafTexts.{float_text};
ghost use Rattle.types_lex.specs.LexText.{SpansWithin};
ghost use Rattle.types_lex.specs.declared.lexeme.LexemeKind.TheVariants as kinds;
ghost use Rattle.text_decimal.specs.texts.Texts.{may_precede, may_follow, write_for, replaced};
ghost use Rattle.text_decimal.specs.texts.Texts.{decimal_text};

use crate::decimal::write_double;
use crate::texts::decimal_prefix::may_after;
use base_data::model::Memory;
use base_data::text::write;
use std::alloc::Global;
use types_lex::lexeme::{LexFault, Lexeme, LexemeKind};
use types_lex::tokens;

/// Returns true if the byte before the offset `at` allows that a double after `at` is written as a
/// decimal.
fn may_precede(text: &[u8], at: usize) -> bool
    requires { at ≤ length text.now }
    ensures { result ≡ may_precede text.now at }
{
    at == 0 || matches!(text[at - 1], b' ' | b'(' | b'=' | b'|')
}

/// Returns true if the byte after the offset `end` allows that a double before `end` is written as
/// a decimal.
fn may_follow(text: &[u8], end: usize) -> bool
    requires { end ≤ length text.now }
    ensures { result ≡ may_follow text.now end }
{
    end == text.len() || matches!(text[end], b' ' | b')' | b',' | b';' | b'|' | b'}')
}

/// Returns true if the bytes `bytes` are the text of a double by its bits.
fn is_float_text(bytes: &[u8], bits: u64) -> bool
    ensures { result ≡ bytes_eq bytes.now (float_text bits) }
{
    let mut digits = [0; 16];
    hex::encode_to_slice(bits.to_be_bytes(), &mut digits).unwrap();
    match bytes {
        [b'$', rest @ ..] => rest == digits.as_slice(),
        _ => false,
    }
}

/// Appends a double that the text gives by its bits. If the double stands alone and `may` is true,
/// the double is written as a decimal. Else the double is written unchanged.
fn write_bits(
    new: &mut Vec<u8>,
    text: &[u8],
    may: bool,
    bits: u64,
    first: usize,
    end: usize,
) -> Result<(), Memory>
    requires { (first ≤ end) × (end ≤ length text.now) }
    ensures { OnOk result (new.new.items
        ≡ new.old.items ++ write_for text.now may (kinds.Double bits) first end) }
{
    let written = &text[first..end];
    if may && may_precede(text, first) && may_follow(text, end) && is_float_text(written, bits) {
        write_double(new, bits)
    } else {
        write(new, written)
    }
}

/// Appends a lexeme, where a double that stands alone becomes a decimal if `may` is true.
fn write_lexeme(new: &mut Vec<u8>, text: &[u8], may: bool, lexeme: &Lexeme) -> Result<(), Memory>
    requires { lexeme.now.span.first + lexeme.now.span.len ≤ length text.now }
    ensures { OnOk result (new.new.items
        ≡ new.old.items ++ write_for text.now may lexeme.now.kind lexeme.now.span.first
        (lexeme.now.span.first + lexeme.now.span.len)) }
{
    let first = lexeme.span.first;
    let end = first + lexeme.span.len;
    match lexeme.kind {
        LexemeKind::Double(bits) => write_bits(new, text, may, bits, first, end),
        _ => write(new, &text[first..end]),
    }
}

/// Appends a text with its doubles as decimals, given the lexemes of the text.
fn write_replaced(new: &mut Vec<u8>, text: &[u8], lexemes: &[Lexeme]) -> Result<(), Memory>
    requires { SpansWithin 0 lexemes.now (length text.now) }
    ensures { OnOk result (new.new.items ≡ new.old.items ++ replaced text.now 0 true lexemes.now) }
{
    let mut at = 0;
    let mut may = true;
    for lexeme in lexemes {
        write(new, &text[at..lexeme.span.first])?;
        write_lexeme(new, text, may, lexeme)?;
        at = lexeme.span.first + lexeme.span.len;
        may = may_after(&lexeme.kind);
    }
    write(new, &text[at..])
}

/// Appends a text with its doubles as decimals. A text with a lexical error is appended unchanged.
pub fn write_decimal_text(alloc: Global, new: &mut Vec<u8>, text: &[u8]) -> Result<(), Memory>
    ensures { OnOk result (new.new.items ≡ new.old.items ++ decimal_text text.now) }
{
    match tokens(alloc, text) {
        Ok(lexemes) => write_replaced(new, text, lexemes.as_slice()),
        Err(LexFault::Memory) => Err(Memory),
        Err(_) => write(new, text),
    }
}
