//! Prints the faults of declarations and types.

ghost use Rattle.std.specs.Prelude.{◌≡◌, ◌++◌, drop, codes, OnOk, IfOk};
ghost use Rattle.types_parse.specs.grammar.Grammar.{FileTree, Texpr};
ghost use Rattle.base_data.specs.lines.Lines.{position_in};
ghost use Rattle.base_data.specs.lines.Positions.{reported_by};
ghost use Rattle.types_lex.specs.Lexer.{step_at};
ghost use Rattle.types_wellformed.specs.declarations.DeclarationFault.{known};
ghost use Rattle.types_wellformed.specs.declarations.DeclarationFaultText.{IsTextOf};
ghost use Rattle.types_wellformed.specs.declarations.DeclarationFaultText.{lexer_text as text_of_lexer};
ghost use Rattle.types_wellformed.specs.declarations.DeclarationFaultText.{placed_text as text_at};
ghost use Rattle.types_wellformed.specs.declarations.DeclarationFaultText.{name_in};
ghost use Rattle.types_wellformed.specs.declarations.DeclarationFaultText.{name_of_step};

use crate::declarations::declaration_fault::DeclFault;
use base_data::lines::PositionStyle;
use base_data::model::Memory;
use base_data::model::list::List;
use std::alloc::Global;
use types_lex::lexeme::LexFault;
use types_lex::{LexStep, step_at};

/// Returns a text that consists of a name, ` at `, and a position.
fn placed_text(
    alloc: Global,
    positions: &PositionStyle<'_>,
    name: &str,
    position: usize,
) -> Result<List<u8>, Memory>
    ensures { IfOk result (λ text. text ≡ text_at name.now (reported_by positions.now position)) }
{
    let mut text = Vec::new(alloc);
    text.extend_from_slice(name.as_bytes())?;
    text.extend_from_slice(b" at ")?;
    positions.write(&mut text, position as u64)?;
    Ok(List::of(text))
}

/// Returns the text of a syntax error at `position`.
pub fn syntax_text(
    alloc: Global,
    positions: &PositionStyle<'_>,
    position: usize,
) -> Result<List<u8>, Memory>
    ensures { IfOk result
        (λ text. text ≡ text_at (codes "Syntax") (reported_by positions.now position)) }
{
    placed_text(alloc, positions, "Syntax", position)
}

/// Returns the text of a fault of the lexer.
pub fn lexer_text(
    alloc: Global,
    positions: &PositionStyle<'_>,
    fault: LexFault,
) -> Result<List<u8>, Memory>
    ensures { IfOk result (λ text. text ≡ text_of_lexer (reported_by positions.now) fault) }
{
    match fault {
        LexFault::BadByte(position) => placed_text(alloc, positions, "BadByte", position),
        LexFault::OpenString(position) => placed_text(alloc, positions, "OpenString", position),
        LexFault::OpenComment(position) => placed_text(alloc, positions, "OpenComment", position),
        LexFault::TooBig(position) => placed_text(alloc, positions, "TooBig", position),
        LexFault::Memory => Err(Memory),
    }
}

/// Returns the bytes of a text from `position` on.
fn from_position(text: &[u8], position: usize) -> &[u8]
    ensures { result.now ≡ drop position text.now }
{
    if position < text.len() {
        &text[position..]
    } else {
        &[]
    }
}

/// Appends the first lexeme of a text in parentheses. If the text begins with no lexeme, nothing is
/// appended.
fn write_first(alloc: Global, new: &mut Vec<u8>, text: &[u8]) -> Result<(), Memory>
    ensures { OnOk result
        (new.new.items ≡ new.old.items ++ name_of_step text.now (step_at text.now)) }
{
    match step_at(alloc, text) {
        Ok(LexStep::Word(word)) => {
            new.push(b'(')?;
            new.extend_from_slice(&text[..word.len])?;
            new.push(b')')?;
            Ok(())
        }
        Ok(LexStep::Gap(_)) => Ok(()),
        Err(LexFault::Memory) => Err(Memory),
        Err(_) => Ok(()),
    }
}

/// Appends the name at `position` if `lines` is true.
fn write_name(
    alloc: Global,
    new: &mut Vec<u8>,
    lines: bool,
    text: &[u8],
    position: usize,
) -> Result<(), Memory>
    ensures { OnOk result (new.new.items ≡ new.old.items ++ name_in lines text.now position) }
{
    if lines {
        write_first(alloc, new, from_position(text, position))
    } else {
        Ok(())
    }
}

/// Appends a position in `text` in the form that `lines` chooses.
fn write_position(
    new: &mut Vec<u8>,
    lines: bool,
    text: &[u8],
    position: usize,
) -> Result<(), Memory>
    ensures { OnOk result (new.new.items ≡ new.old.items ++ position_in lines text.now position) }
{
    PositionStyle::of_text(lines, text).write(new, position as u64)
}

/// Returns a text that consists of `what`, the name at `position`, ` at `, and the position.
fn named_text(
    alloc: Global,
    lines: bool,
    text: &[u8],
    what: &str,
    position: usize,
) -> Result<List<u8>, Memory>
    ensures { IfOk result
        (λ refusal. refusal
        ≡ text_at (what.now ++ name_in lines text.now position)
        (position_in lines text.now position)) }
{
    let mut refusal = Vec::new(alloc);
    refusal.extend_from_slice(what.as_bytes())?;
    write_name(alloc, &mut refusal, lines, text, position)?;
    refusal.extend_from_slice(b" at ")?;
    write_position(&mut refusal, lines, text, position)?;
    Ok(List::of(refusal))
}

/// Returns a text that consists of `what`, ` at `, and the position.
fn plain_text(
    alloc: Global,
    lines: bool,
    text: &[u8],
    what: &str,
    position: usize,
) -> Result<List<u8>, Memory>
    ensures { IfOk result
        (λ refusal. refusal ≡ text_at what.now (position_in lines text.now position)) }
{
    placed_text(alloc, &PositionStyle::of_text(lines, text), what, position)
}

/// Returns the text of a lexical error.
fn lexical_text(
    alloc: Global,
    lines: bool,
    text: &[u8],
    fault: LexFault,
) -> Result<List<u8>, Memory>
    ensures { IfOk result
        (λ refusal. refusal ≡ text_of_lexer (position_in lines text.now) fault) }
{
    lexer_text(alloc, &PositionStyle::of_text(lines, text), fault)
}

/// Returns the text of a fault of `text`: what is wrong, and ` at ` with the position. If `lines`
/// is true, the name that breaks a rule comes in parentheses before ` at `. A memory fault has no
/// specified text.
pub fn fault_text(
    alloc: Global,
    lines: bool,
    text: &[u8],
    fault: &DeclFault,
) -> Result<List<u8>, Memory>
    ensures files { IfOk result (IsTextOf lines text.now (known {Tree = FileTree} fault.now)) }
    ensures types { IfOk result (IsTextOf lines text.now (known {Tree = Texpr} fault.now)) }
{
    match fault {
        DeclFault::Lex(fault) => lexical_text(alloc, lines, text, *fault),
        DeclFault::Syntax(position) => plain_text(alloc, lines, text, "Syntax", *position),
        DeclFault::TooDeep(position) => plain_text(alloc, lines, text, "TooDeep", *position),
        DeclFault::Twice(position) => named_text(alloc, lines, text, "Twice", *position),
        DeclFault::UnknownName(position) => {
            named_text(alloc, lines, text, "UnknownName", *position)
        }
        DeclFault::Arity(position) => named_text(alloc, lines, text, "Arity", *position),
        DeclFault::UnboundVar(position) => {
            named_text(alloc, lines, text, "UnboundVar", *position)
        }
        DeclFault::Cyclic(position) => named_text(alloc, lines, text, "Cyclic", *position),
        DeclFault::Irregular(position) => named_text(alloc, lines, text, "Irregular", *position),
        DeclFault::TooManyConstructors(position) => {
            named_text(alloc, lines, text, "TooManyConstructors", *position)
        }
        DeclFault::NotVariant(position) => {
            plain_text(alloc, lines, text, "NotVariant", *position)
        }
        DeclFault::TagClash(position) => plain_text(alloc, lines, text, "TagClash", *position),
        DeclFault::HashClash(position, _, _) => {
            plain_text(alloc, lines, text, "HashClash", *position)
        }
        DeclFault::FloatInGroup(position) => {
            named_text(alloc, lines, text, "FloatInGroup", *position)
        }
        DeclFault::MixedRecord(position) => {
            named_text(alloc, lines, text, "MixedRecord", *position)
        }
        DeclFault::Memory => Err(Memory),
    }
}
