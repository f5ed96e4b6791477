//! Brief lexemes, the fast path of the lexer for literals. A brief lexeme may omit the contents of
//! a name or a string.

ghost use Rattle.std.specs.Prelude.{◌≡◌, ◌<◌, ◌≤◌, List, length, slice_index, Result, IfOk, IfSome};
ghost use Rattle.std.specs.Prelude.{IsTrue, Ok};
ghost use Rattle.std.specs.List.{take_while};
ghost use Rattle.types_lex.specs.declared.found_lexeme.FoundLexeme.{FoundLexeme};
ghost use Rattle.types_lex.specs.declared.lexeme.LexFault.{LexFault};
ghost use Rattle.types_lex.specs.declared.lexeme.Lexeme.{Lexeme};
ghost use Rattle.types_lex.specs.Brief.{lone_symbol, begins_literal, brief_name, FindsBrief};
ghost use Rattle.types_lex.specs.Brief.{StepsBrief, in_full, IsBriefNext};
ghost use Rattle.types_lex.specs.Lexeme.{starts_name, is_name_byte};
ghost use Rattle.types_lex.specs.Lexemes.{Reached, GoesOn};
ghost use Rattle.types_lex.specs.LexText.{Answers};
ghost use Rattle.types_lex.specs.Lexer.{cased_form, word_form, found, string_at, word_of, step_at};

use crate::character_classes::{is_separator, name_len, starts_lower, starts_name};
use crate::characters::{char_at, plain_end};
use crate::found_lexeme::{FoundLexeme, LexStep};
use crate::lexeme::{LexFault, Lexeme, LexemeKind, LexemeSpan, Symbol};
use crate::lexer::{moved, step_at};
use crate::name_lexer::{copied, keyword_of};
use base_data::model::list::List;
use std::alloc::Global;

/// Returns true if a literal may begin with this lowercase name.
fn begins_literal(name: &[u8]) -> bool
    ensures { result ≡ begins_literal name.now }
{
    name == b"true".as_slice() || name == b"false".as_slice() || name == b"ref".as_slice()
}

/// If literals begin with this lowercase name, copies the name. If no literal begins with this
/// name, returns the empty name.
fn brief_name(alloc: Global, name: &[u8]) -> Result<List<u8>, LexFault>
    ensures { Answers (λ l. l) result (Ok (brief_name name.now)) }
{
    if begins_literal(name) {
        copied(alloc, name)
    } else {
        Ok(List::new(alloc))
    }
}

/// Returns the brief lexeme of a name that is not a keyword.
fn brief_cased(alloc: Global, name: &[u8]) -> Result<FoundLexeme, LexFault>
    requires { 0 < length name.now }
    ensures { FindsBrief result (Ok (found (cased_form name.now))) }
{
    let len = name.len();
    if starts_lower(name[0]) {
        let kept = brief_name(alloc, name)?;
        Ok(FoundLexeme {
            kind: LexemeKind::Lower(kept),
            len,
        })
    } else {
        Ok(FoundLexeme {
            kind: LexemeKind::Upper(List::new(alloc)),
            len,
        })
    }
}

/// Lexes the name or keyword at the start of the text.
fn brief_word(alloc: Global, text: &[u8]) -> Result<FoundLexeme, LexFault>
    requires first { 0 < length text.now }
    requires name { IsTrue (starts_name (slice_index text.now 0)) }
    ensures { FindsBrief result (Ok (found (word_form (take_while is_name_byte text.now)))) }
{
    let len = name_len(text);
    let name = &text[..len];
    match keyword_of(name) {
        None => brief_cased(alloc, name),
        Some(keyword) => Ok(FoundLexeme {
            kind: LexemeKind::Keyword(keyword),
            len,
        }),
    }
}

/// Lexes the string whose opening quote precedes the text.
fn brief_string(alloc: Global, text: &[u8]) -> Result<FoundLexeme, LexFault>
    ensures { FindsBrief result (string_at text.now) }
{
    let mut at = plain_end(text, 0);
    while let Some((_, len)) = char_at(b'"', &text[at..]) {
        at = plain_end(text, at + len);
    }
    if at >= text.len() {
        return Err(LexFault::OpenString(0));
    }
    let end = text[at];
    if end == b'"' {
        Ok(FoundLexeme {
            kind: LexemeKind::Text(List::new(alloc)),
            len: at + 2,
        })
    } else if end == b'\\' {
        Err(LexFault::BadByte(at + 2))
    } else {
        Err(LexFault::OpenString(0))
    }
}

/// Wraps the result of a lexer function as a step.
#[inline(always)]
fn word_step(found: Result<FoundLexeme, LexFault>) -> Result<LexStep, LexFault>
    ensures { (e : Result FoundLexeme LexFault) → FindsBrief found e
        → StepsBrief result (word_of e) }
{
    match found {
        Ok(word) => Ok(LexStep::Word(word)),
        Err(fault) => Err(fault),
    }
}

/// Returns the symbol of a byte that begins no longer symbol and no comment.
#[inline(always)]
fn lone_symbol(byte: u8) -> Option<Symbol>
    ensures { result ≡ lone_symbol byte }
{
    match byte {
        b',' => Some(Symbol::Comma),
        b')' => Some(Symbol::CloseParen),
        b'=' => Some(Symbol::Equals),
        b'{' => Some(Symbol::OpenBrace),
        b'}' => Some(Symbol::CloseBrace),
        _ => None,
    }
}

/// Lexes the separator, comment or lexeme at the start of the text. The lexemes that are most
/// frequent in literals are tested first.
#[inline(always)]
fn brief_step(alloc: Global, text: &[u8]) -> Result<LexStep, LexFault>
    ensures { StepsBrief result (step_at text.now) }
{
    if text.is_empty() {
        return Err(LexFault::BadByte(0));
    }
    if is_separator(text[0]) {
        return Ok(LexStep::Gap(1));
    }
    if let Some(symbol) = lone_symbol(text[0]) {
        return Ok(LexStep::Word(FoundLexeme {
            kind: LexemeKind::Symbol(symbol),
            len: 1,
        }));
    }
    if text[0] == b'"' {
        return word_step(brief_string(alloc, &text[1..]));
    }
    if starts_name(text[0]) {
        return word_step(brief_word(alloc, text));
    }
    step_at(alloc, text)
}

/// Returns the first lexeme of a text that begins at position `from` (in bytes) or later. If no
/// lexeme follows, returns `None`. The lexeme may omit the contents of a name or a string. If the
/// text has a fault before a lexeme, fails with the first fault.
#[inline(always)]
pub fn next_brief(alloc: Global, text: &[u8], from: usize) -> Result<Option<Lexeme>, LexFault>
    requires { from ≤ length text.now }

    // If `prefix` are the lexemes before `from`, the result is the lexeme after `prefix`, the end
    // of the text, or a fault of the text.
    ensures next { (prefix : List Lexeme) → Reached text.now from prefix
        → GoesOn text.now prefix (in_full text.now result) }

    // The lexeme begins at `from` or later, and equals the lexeme that begins at its position.
    ensures position { IfOk result (λ found. IfSome found (IsBriefNext text.now from)) }
{
    let mut at = from;
    while at < text.len() {
        match brief_step(alloc, &text[at..]) {
            Ok(LexStep::Gap(len)) => at += len,
            Ok(LexStep::Word(word)) => {
                let span = LexemeSpan {
                    first: at,
                    len: word.len,
                };
                return Ok(Some(Lexeme {
                    kind: word.kind,
                    span,
                }));
            }
            Err(fault) => return Err(moved(fault, at)),
        }
    }
    Ok(None)
}
