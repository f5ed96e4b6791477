//! Lexes a text part by part. A part is a separator, a comment or a lexeme.

ghost use Rattle.std.specs.Prelude.{◌≡◌, ◌+◌, ◌<◌, ◌^◌, ℕ, IfOk, IfErr, List, length};
ghost use Rattle.types_lex.specs.declared.lexeme.Lexeme.{Lexeme};
ghost use Rattle.types_lex.specs.declared.lexeme.LexFault.{LexFault};
ghost use Rattle.types_lex.specs.LexText.{Lexes, Faults, Answers, UnlessMemory, SpansWithin};
ghost use Rattle.types_lex.specs.LexText.{HasOneOutcome};
ghost use Rattle.types_lex.specs.Lexer.{lexeme_at, step_at, position_of, moved};

use crate::character_classes::{is_separator, starts_name};
use crate::characters::{quoted, string};
use crate::comments::closing;
use crate::found_lexeme::{FoundLexeme, LexStep};
use crate::lexeme::{LexFault, Lexeme, LexemeSpan};
use crate::name_lexer::{tag, word};
use crate::numbers::{double, integer};
use crate::symbols::symbol;
use std::alloc::Global;

/// Lexes the lexeme at the start of the text.
#[tactic(auto, unfolding(crate::specs::Lexer::lexeme_at, crate::specs::Lexer::form_at))]
#[inline(always)]
fn lexeme_at(alloc: Global, text: &[u8]) -> Result<FoundLexeme, LexFault>
    ensures { Answers (λ w. w) result (lexeme_at text.now) }
{
    let [first, rest @ ..] = text else {
        return Err(LexFault::BadByte(0));
    };
    match *first {
        b'"' => string(alloc, rest),
        b'\'' => quoted(alloc, rest),
        b'`' => tag(alloc, rest),
        b'$' => double(rest),
        b'-' => integer(true, rest),
        _ => {
            if starts_name(*first) {
                word(alloc, text)
            } else if first.is_ascii_digit() {
                integer(false, text)
            } else {
                symbol(*first, rest)
            }
        }
    }
}

/// Lexes the separator, comment or lexeme at the start of the text.
#[tactic(auto, unfolding(crate::specs::Lexer::step_at))]
#[inline(always)]
pub fn step_at(alloc: Global, text: &[u8]) -> Result<LexStep, LexFault>
    ensures { Answers (λ s. s) result (step_at text.now) }
{
    let [first, rest @ ..] = text else {
        return Err(LexFault::BadByte(0));
    };
    if is_separator(*first) {
        return Ok(LexStep::Gap(1));
    }
    if let [b'*', inside @ ..] = rest {
        if *first == b'(' {
            return match closing(inside) {
                None => Err(LexFault::OpenComment(0)),
                Some(len) => Ok(LexStep::Gap(len + 2)),
            };
        }
    }
    Ok(LexStep::Word(lexeme_at(alloc, text)?))
}

/// Returns the fault with its position increased by `by`.
pub fn moved(fault: LexFault, by: usize) -> LexFault
    requires { position_of fault + by < 2 ^ 64 }
    ensures { result ≡ moved by fault }
{
    match fault {
        LexFault::BadByte(position) => LexFault::BadByte(position + by),
        LexFault::OpenString(position) => LexFault::OpenString(position + by),
        LexFault::OpenComment(position) => LexFault::OpenComment(position + by),
        LexFault::TooBig(position) => LexFault::TooBig(position + by),
        LexFault::Memory => LexFault::Memory,
    }
}

/// Lexes the whole text, one step after another.
fn scan(alloc: Global, text: &[u8]) -> Result<Vec<Lexeme>, LexFault>
    ensures lexemes { IfOk result (λ v. Lexes text.now v.items) }
    ensures fault { IfErr result (UnlessMemory (Faults text.now)) }
{
    let mut lexemes = Vec::new(alloc);
    let mut at: usize = 0;
    while at < text.len() {
        match step_at(alloc, &text[at..]) {
            Ok(LexStep::Gap(len)) => at += len,
            Ok(LexStep::Word(word)) => {
                let span = LexemeSpan {
                    first: at,
                    len: word.len,
                };
                at += word.len;
                lexemes.push(Lexeme {
                    kind: word.kind,
                    span,
                })?;
            }
            Err(fault) => return Err(moved(fault, at)),
        }
    }
    Ok(lexemes)
}

/// Returns the lexemes of a text in order. If the text has a fault, fails with the first fault.
pub fn tokens(alloc: Global, text: &[u8]) -> Result<Vec<Lexeme>, LexFault>
    // If the result is `Ok`, then the vector contains the lexemes of the text. If the result is a
    // fault, then the text before the fault consists of complete parts.
    ensures lexemes { IfOk result (λ v. Lexes text.now v.items) }
    ensures fault { IfErr result (UnlessMemory (Faults text.now)) }

    // The spans of the lexemes follow one another without overlap.
    ensures spans { IfOk result (λ v. SpansWithin 0 v.items (length text.now)) }

    // If the text has lexemes, then the result is these lexemes, unless memory runs out. If the
    // text has a fault, then the result is this fault, unless memory runs out.
    ensures only_lexemes { (lexemes : List Lexeme) → Lexes text.now lexemes
        → Answers (λ v. v.items) result (Ok lexemes) }
    ensures only_fault { (fault : LexFault) → Faults text.now fault
        → Answers (λ v. v.items) result (Err fault) }
{
    scan(alloc, text)
}

/// Proves that each text has exactly one outcome: the lexemes of the text or the first fault of the
/// text. `one_outcome` is a lemma function.
pub fn one_outcome()
    ensures { (text : List ℕ) → HasOneOutcome text }
{}
