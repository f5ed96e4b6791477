//! The lexemes of a text, one at a time.

ghost use Rattle.std.specs.Prelude.{◌<◌, ◌≤◌, List, length, IfOk, IfSome};
ghost use Rattle.types_lex.specs.declared.lexeme.Lexeme.{Lexeme};
ghost use Rattle.types_lex.specs.Lexemes.{Reached, GoesOn, StepsOn, IsNext, Ends};

use crate::found_lexeme::LexStep;
use crate::lexeme::{LexFault, Lexeme, LexemeSpan};
use crate::lexer::{moved, step_at};
use std::alloc::Global;

/// Returns the first lexeme of a text that begins at position `from` (in bytes) or later. If no
/// lexeme follows, returns `None`. If the text has a fault before a lexeme, fails with the first
/// fault.
pub fn next_lexeme(alloc: Global, text: &[u8], from: usize) -> Result<Option<Lexeme>, LexFault>
    requires { from ≤ length text.now }

    // If `prefix` are the lexemes before `from`, the result is the lexeme after `prefix`, the end
    // of the text, or a fault of the text.
    ensures next { (prefix : List Lexeme) → Reached text.now from prefix
        → GoesOn text.now prefix result }

    // The lexeme begins at `from` or later, and equals the lexeme that begins at its position.
    ensures position { IfOk result (λ found. IfSome found (IsNext text.now from)) }
{
    let mut at = from;
    while at < text.len() {
        match step_at(alloc, &text[at..]) {
            Ok(LexStep::Gap(len)) => at += len,
            Ok(LexStep::Word(word)) => {
                let span = LexemeSpan {
                    first: at,
                    len: word.len,
                };
                return Ok(Some(Lexeme {
                    kind: word.kind,
                    span,
                }));
            }
            Err(fault) => return Err(moved(fault, at)),
        }
    }
    Ok(None)
}

/// Returns the position after the separator, comment or lexeme at position `at`.
fn step_over(alloc: Global, text: &[u8], at: usize) -> Result<usize, LexFault>
    requires { at < length text.now }
    ensures over { (prefix : List Lexeme) → Reached text.now at prefix
        → StepsOn text.now prefix result }
    ensures end { IfOk result (λ end. (at < end) × (end ≤ length text.now)) }
{
    match step_at(alloc, &text[at..]) {
        Ok(LexStep::Gap(len)) => Ok(at + len),
        Ok(LexStep::Word(word)) => Ok(at + word.len),
        Err(fault) => Err(moved(fault, at)),
    }
}

/// Checks that the text consists of lexemes from position `from` to the end. If the text has a
/// fault, fails with the first fault.
pub fn see_lexemes(alloc: Global, text: &[u8], from: usize) -> Result<(), LexFault>
    requires { from ≤ length text.now }
    ensures { (prefix : List Lexeme) → Reached text.now from prefix → Ends text.now prefix result }
{
    let mut at = from;
    while at < text.len() {
        match step_over(alloc, text, at) {
            Ok(end) => at = end,
            Err(fault) => return Err(fault),
        }
    }
    Ok(())
}
