//! The marks of a list of lexemes: names, tags and variables, and the first lexemes of the types
//! that brackets include.

ghost use Rattle.std.specs.Prelude.{◌≡◌, ◌&&◌, ◌++◌, false, IfOk, OnOk};
ghost use Rattle.types_parse.specs.grammar.LexemeKinds.{kinds_of};
ghost use Rattle.types_resolve.specs.occurrences.Counted.{is_marked, opens_item, begins_type};
ghost use Rattle.types_resolve.specs.occurrences.Counted.{one_if, marks};

use base_data::model::Memory;
use std::alloc::Global;
use types_lex::lexeme::{Lexeme, LexemeKind, Symbol};

/// Returns true if the lexeme is a name, a tag or a variable.
fn is_marked(kind: &LexemeKind) -> bool
    ensures { result ≡ is_marked kind.now }
{
    match kind {
        LexemeKind::Lower(_)
        | LexemeKind::Upper(_)
        | LexemeKind::Tag(_)
        | LexemeKind::Variable(_) => true,
        _ => false,
    }
}

/// Returns true if an item of a bracket may begin after the lexeme.
fn opens_item(kind: &LexemeKind) -> bool
    ensures { result ≡ opens_item kind.now }
{
    match kind {
        LexemeKind::Symbol(Symbol::OpenBracket | Symbol::Bar) => true,
        _ => false,
    }
}

/// Returns true if an included type begins with the lexeme. The argument `fresh` is true if an item
/// of a bracket may begin with the lexeme.
fn includes(kind: &LexemeKind, fresh: bool) -> bool
    ensures { result ≡ (begins_type kind.now && fresh) }
{
    match kind {
        LexemeKind::Lower(_)
        | LexemeKind::Variable(_)
        | LexemeKind::Symbol(Symbol::OpenParen | Symbol::OpenBracket) => fresh,
        _ => false,
    }
}

/// Appends `number` to `marked` if `test` is true.
fn push_if(test: bool, marked: &mut Vec<usize>, number: usize) -> Result<(), Memory>
    ensures { OnOk result (marked.new.items ≡ marked.old.items ++ one_if test number) }
{
    if test {
        marked.push(number)?;
    }
    Ok(())
}

/// Returns the marks of the lexemes. The index of each name, tag or variable is a mark. If a type
/// that a bracket includes begins at a lexeme, the included type also has a mark with the lexeme's
/// index. The mark of an included type precedes the lexeme's own mark.
pub fn marks(alloc: Global, lexemes: &[Lexeme]) -> Result<Vec<usize>, Memory>
    ensures { IfOk result (λ v. v.items ≡ marks 0 false (kinds_of lexemes.now)) }
{
    let mut marked = Vec::new(alloc);
    let mut fresh = false;
    for i in 0..lexemes.len() {
        let lexeme = &lexemes[i];
        push_if(includes(&lexeme.kind, fresh), &mut marked, i)?;
        push_if(is_marked(&lexeme.kind), &mut marked, i)?;
        fresh = opens_item(&lexeme.kind);
    }
    Ok(marked)
}
