//! The parser for a path.

ghost use Rattle.std.specs.Prelude.{◌≡◌, if◌then◌else◌, IfOk, IfErr, List, ℕ, Some, None};
ghost use Rattle.std.specs.Prelude.{Result, Ok, Err};
ghost use Rattle.text_path.specs.ParserAnswer.{IsAnswer, IsEncoded, UnlessMemory, Reports};
ghost use Rattle.types_parse.specs.grammar.LexemeKinds.{number_of};
ghost use Rattle.text_path.specs.PathMachine.{is_dot, at, step, stepped, accepted};
ghost use Rattle.text_path.specs.declared.path_fault.PathFault.{PathFault};

use crate::path_fault::{PathFault, lexer_fault};
use base_data::model::Memory;
use base_data::model::path::Path;
use std::alloc::Global;
use types_lex::lexeme::{Lexeme, LexemeKind, Symbol};
use types_lex::tokens;
use types_parse::parse::{byte_of, number_of};

/// Returns true if the lexeme is a dot.
fn is_dot(kind: &LexemeKind) -> bool
    ensures { result ≡ is_dot kind.now }
{
    match kind {
        LexemeKind::Symbol(Symbol::Dot) => true,
        _ => false,
    }
}

/// Extends the path by one lexeme. Returns false if no path continues with the lexeme.
pub fn step(path: &mut Path, after_dot: bool, kind: &LexemeKind) -> Result<bool, Memory>
    ensures { IfOk result
        (λ goes. step (at path.old after_dot) kind.now ≡ stepped goes path.new after_dot) }
{
    if !after_dot {
        return Ok(is_dot(kind));
    }
    match number_of(kind) {
        None => Ok(false),
        Some(step) => {
            path.push(step)?;
            Ok(true)
        }
    }
}

/// Returns true if a path may end after the steps of `path`. `after_dot` is true if a dot follows
/// the steps.
pub fn is_whole(path: &Path, after_dot: bool) -> bool
    ensures { accepted (at path.now after_dot) ≡ (if result then Some path.now else None) }
{
    if path.len() == 0 {
        after_dot
    } else {
        !after_dot
    }
}

/// Parses a path from the lexemes of a text of `end` bytes.
fn path_of(alloc: Global, lexemes: &[Lexeme], end: usize) -> Result<Path, PathFault>
    ensures path { IfOk result (λ path. IsEncoded lexemes.now end (Ok path)) }
    ensures fault { IfErr result (UnlessMemory (λ fault. IsEncoded lexemes.now end (Err fault))) }
{
    let mut path = Path::new(alloc);
    let mut after_dot = false;
    for (position, lexeme) in lexemes.iter().enumerate() {
        if !step(&mut path, after_dot, &lexeme.kind)? {
            return Err(PathFault::Syntax(byte_of(lexemes, end, position)));
        }
        after_dot = !after_dot;
    }
    if is_whole(&path, after_dot) {
        Ok(path)
    } else {
        Err(PathFault::Syntax(byte_of(lexemes, end, lexemes.len())))
    }
}

/// Parses a path from a text.
fn read(alloc: Global, text: &[u8]) -> Result<Path, PathFault>
    ensures path { IfOk result (λ path. IsAnswer text.now (Ok path)) }
    ensures fault { IfErr result (UnlessMemory (λ fault. IsAnswer text.now (Err fault))) }
{
    match tokens(alloc, text) {
        Ok(lexemes) => path_of(alloc, lexemes.as_slice(), text.len()),
        Err(fault) => Err(lexer_fault(fault)),
    }
}

/// Parses a path. A syntax error carries a byte offset in `text`.
pub fn read_path(alloc: Global, text: &[u8]) -> Result<Path, PathFault>
    // If memory does not run out, the path or the error is the text's answer.
    ensures path { IfOk result (λ path. IsAnswer text.now (Ok path)) }
    ensures fault { IfErr result (UnlessMemory (λ fault. IsAnswer text.now (Err fault))) }

    // If the text has an answer and memory does not run out, the answer is returned.
    ensures only { (answer : Result (List ℕ) PathFault) → IsAnswer text.now answer
        → Reports result answer }
{
    read(alloc, text)
}
