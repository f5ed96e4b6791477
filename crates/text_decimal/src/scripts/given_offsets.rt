//! Maps offsets in the plain lines of a script to offsets in the original lines.

ghost use Rattle.std.specs.Prelude.{◌≡◌, map, IfOk};
ghost use Rattle.std.specs.List.{All};
ghost use Rattle.text_decimal.specs.scripts.Scripts.{line_position, decimals_on, given_lexeme};
ghost use Rattle.text_decimal.specs.scripts.Scripts.{given_lex, given_edit, given_fault};
ghost use Rattle.text_decimal.specs.scripts.Scripts.{given_action, given_line};
ghost use Rattle.text_decimal.specs.scripts.PlainScripts.{Fit};

use crate::texts::{Decimal, given_position};
use base_data::model::Memory;
use base_data::model::list::List;
use std::alloc::Global;
use text_path::{Action, Edit, ScriptFault, ScriptLine};
use types_lex::Lexemes;
use types_lex::lexeme::{LexFault, Lexeme, LexemeSpan};

/// Returns the offset in a line for an offset in the plain text of the line, given the decimals of
/// the line.
fn line_position(decimals: &[Decimal], position: usize) -> usize
    requires { Fit decimals.now }
    ensures { result ≡ line_position decimals.now position }
{
    if position < 1 << 63 {
        given_position(decimals, position)
    } else {
        position
    }
}

/// Returns the decimals of line `number`, where lines are counted from 1.
fn decimals_on(all: &[List<Decimal>], number: usize) -> &[Decimal]
    requires { All Fit all.now }
    ensures are { result.now ≡ decimals_on all.now number }
    ensures fit { Fit result.now }
{
    match all.get(number.saturating_sub(1)) {
        Some(decimals) => decimals.as_slice(),
        None => &[],
    }
}

/// Returns the lexemes of a literal with their offsets in the original line.
fn given_literal(
    alloc: Global,
    decimals: &[Decimal],
    literal: &[Lexeme],
) -> Result<List<Lexeme>, Memory>
    requires { Fit decimals.now }
    ensures { IfOk result (λ given. given ≡ map (given_lexeme decimals.now) literal.now) }
{
    let kinds = Lexemes::of_row(literal);
    let mut given = List::new(alloc);
    for k in 0..literal.len() {
        let Some(kind) = kinds.kind(alloc, k)? else {
            return Ok(given);
        };
        let lexeme = &literal[k];
        let first = line_position(decimals, lexeme.span.first);
        let len = lexeme.span.len;
        given.push(Lexeme {
            kind,
            span: LexemeSpan { first, len },
        })?;
    }
    Ok(given)
}

/// Returns an edit. The lexemes of the edit's literal have their offsets in the original line.
fn given_edit(alloc: Global, decimals: &[Decimal], edit: &Edit) -> Result<Edit, Memory>
    requires { Fit decimals.now }
    ensures { IfOk result (λ given. given ≡ given_edit decimals.now edit.now) }
{
    match edit {
        Edit::Set(path, literal, end) => {
            let path = path.copied(alloc)?;
            let literal = given_literal(alloc, decimals, literal.as_slice())?;
            Ok(Edit::Set(path, literal, line_position(decimals, *end)))
        }
        Edit::Link(path, source) => {
            let path = path.copied(alloc)?;
            Ok(Edit::Link(path, source.copied(alloc)?))
        }
        Edit::Unshare(path) => Ok(Edit::Unshare(path.copied(alloc)?)),
    }
}

/// Returns the request of a line. The lexemes of the request's literal have their offsets in the
/// original line.
fn given_action(alloc: Global, decimals: &[Decimal], action: &Action) -> Result<Action, Memory>
    requires { Fit decimals.now }
    ensures { IfOk result (λ given. given ≡ given_action decimals.now action.now) }
{
    match action {
        Action::Edit(edit) => Ok(Action::Edit(given_edit(alloc, decimals, edit)?)),
        Action::Graft(path, other, source) => {
            let path = path.copied(alloc)?;
            Ok(Action::Graft(path, *other, source.copied(alloc)?))
        }
    }
}

/// Returns the lines of a script. All lexemes have their offsets in the original lines.
pub fn given_lines(
    alloc: Global,
    all: &[List<Decimal>],
    lines: &[ScriptLine],
) -> Result<List<ScriptLine>, Memory>
    requires { All Fit all.now }
    ensures { IfOk result (λ given. given ≡ map (given_line all.now) lines.now) }
{
    let mut given = List::new(alloc);
    for line in lines {
        let decimals = decimals_on(all, line.number);
        let action = given_action(alloc, decimals, &line.action)?;
        given.push(ScriptLine {
            number: line.number,
            value: line.value,
            action,
        })?;
    }
    Ok(given)
}

/// Returns a lexical error with its offset in the original line.
fn given_lex(decimals: &[Decimal], fault: LexFault) -> LexFault
    requires { Fit decimals.now }
    ensures { result ≡ given_lex decimals.now fault }
{
    match fault {
        LexFault::BadByte(position) => LexFault::BadByte(line_position(decimals, position)),
        LexFault::OpenString(position) => LexFault::OpenString(line_position(decimals, position)),
        LexFault::OpenComment(position) => LexFault::OpenComment(line_position(decimals, position)),
        LexFault::TooBig(position) => LexFault::TooBig(line_position(decimals, position)),
        LexFault::Memory => LexFault::Memory,
    }
}

/// Returns the error of a script with its offset in the original line.
pub fn given_fault(all: &[List<Decimal>], fault: ScriptFault) -> ScriptFault
    requires { All Fit all.now }
    ensures { result ≡ given_fault all.now fault }
{
    match fault {
        ScriptFault::Lex(number, fault) => {
            ScriptFault::Lex(number, given_lex(decimals_on(all, number), fault))
        }
        ScriptFault::Syntax(number, position) => {
            ScriptFault::Syntax(number, line_position(decimals_on(all, number), position))
        }
        ScriptFault::Later(number) => ScriptFault::Later(number),
        ScriptFault::Memory => ScriptFault::Memory,
    }
}
