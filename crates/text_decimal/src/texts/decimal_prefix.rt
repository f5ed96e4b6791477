//! The first token of a text in which decimals may denote doubles.

ghost use Rattle.std.specs.Prelude.{◌≡◌, ◌<◌, IfOk, None, length};
ghost use Rattle.types_lex.specs.Lexer.{step_at};
ghost use Rattle.text_decimal.specs.texts.PlainTexts.{may_after, prefix_of, prefix_at};
ghost use Rattle.text_decimal.specs.texts.PlainTexts.{IsPrefixWithin};

use crate::decimal::read_decimal;
use base_data::model::Memory;
use std::alloc::Global;
use types_lex::lexeme::{LexFault, LexemeKind, Symbol};
use types_lex::{LexStep, step_at};

/// The first token of a text. `Double` is a decimal: the bits of its double, and its length in
/// bytes. `Kept` is a token that is not a decimal: its length, and whether the next token may be a
/// decimal. `Fault` is a lexical error.
#[derive(Clone, Copy)]
pub enum DecimalPrefix {
    Double(u64, usize),
    Kept(usize, bool),
    Fault,
}

/// Returns true if a decimal may be the next lexeme after the lexeme: the lexeme is not a dot.
pub fn may_after(kind: &LexemeKind) -> bool
    ensures { result ≡ may_after kind.now }
{
    !matches!(kind, LexemeKind::Symbol(Symbol::Dot))
}

/// Returns the first token of a text in which no decimal comes first. After a gap, a decimal may
/// follow if `may` is true.
fn kept(alloc: Global, may: bool, text: &[u8]) -> Result<DecimalPrefix, Memory>
    requires { 0 < length text.now }
    ensures is { IfOk result (λ f. f ≡ prefix_of may None (step_at text.now)) }
    ensures within { IfOk result (IsPrefixWithin (length text.now)) }
{
    match step_at(alloc, text) {
        Ok(LexStep::Gap(len)) => Ok(DecimalPrefix::Kept(len, may)),
        Ok(LexStep::Word(word)) => Ok(DecimalPrefix::Kept(word.len, may_after(&word.kind))),
        Err(LexFault::Memory) => Err(Memory),
        Err(_) => Ok(DecimalPrefix::Fault),
    }
}

/// Returns the first token of a text. If `may` is true and the text begins with a decimal, the
/// token is the decimal.
pub fn read_prefix(alloc: Global, may: bool, text: &[u8]) -> Result<DecimalPrefix, Memory>
    requires { 0 < length text.now }
    ensures is { IfOk result (λ f. f ≡ prefix_at may text.now) }
    ensures within { IfOk result (IsPrefixWithin (length text.now)) }
{
    if !may {
        return kept(alloc, may, text);
    }
    match read_decimal(text) {
        Some((bits, len)) => Ok(DecimalPrefix::Double(bits, len)),
        None => kept(alloc, may, text),
    }
}
