//! The parser for a line of a script.

ghost use Rattle.std.specs.Prelude.{◌≡◌, ◌<◌, ◌≤◌, IfOk, IfErr, Option, Some, None, Ok, Err};
ghost use Rattle.std.specs.Prelude.{length, drop};
ghost use Rattle.types_parse.specs.grammar.LexemeKinds.{number_of};
ghost use Rattle.text_path.specs.PathMachine.{at};
ghost use Rattle.text_path.specs.LineMachine.{named_role, role_of, valued, begun, is_equals};
ghost use Rattle.text_path.specs.LineMachine.{after_equals, with_other, steps_next, next_of};
ghost use Rattle.text_path.specs.ScriptAnswer.{IsRead, IsLineAnswer, UnlessMemory};
ghost use Rattle.text_path.specs.LineCode.{IsKnown, action_of, ended_line, in_time};
ghost use Rattle.text_path.specs.declared.edits.Action.TheVariants as actions;
ghost use Rattle.text_path.specs.declared.edits.Edit.TheVariants as edits;

use crate::edits::{Action, Edit, ScriptFault, ScriptLine, line_fault};
use crate::line_prefix::{LexemeResult, LineLexemes, LinePrefix, Role};
use crate::path_parser::{is_whole, step};
use base_data::model::Memory;
use base_data::model::list::List;
use base_data::model::path::Path;
use std::alloc::Global;
use types_lex::lexeme::{Lexeme, LexemeKind, Symbol};
use types_lex::tokens;
use types_parse::parse::{byte_of, number_of};

/// Returns the role of the path after a command word, or `None` if the name is not a command word.
fn named_role(name: &[u8]) -> Option<Role>
    ensures { result ≡ named_role name.now }
{
    if name == b"set".as_slice() {
        Some(Role::Set)
    } else if name == b"link".as_slice() {
        Some(Role::Link)
    } else if name == b"unshare".as_slice() {
        Some(Role::Unshare)
    } else if name == b"graft".as_slice() {
        Some(Role::Graft)
    } else {
        None
    }
}

/// Returns the role of the path after the lexeme `kind`, or `None` if the lexeme is not one of the
/// four command words.
fn role_of(kind: &LexemeKind) -> Option<Role>
    ensures { result ≡ role_of kind.now }
{
    match kind {
        LexemeKind::Lower(name) => named_role(name.as_slice()),
        _ => None,
    }
}

/// Parses the number of the edited value.
fn valued(kind: &LexemeKind) -> LexemeResult
    ensures { result ≡ valued (number_of kind.now) }
{
    match number_of(kind) {
        Some(value) => LexemeResult::Onward(LinePrefix::Value(value)),
        None => LexemeResult::Nowhere,
    }
}

/// Parses the command word.
fn begun(alloc: Global, value: u64, kind: &LexemeKind) -> LexemeResult
    ensures { result ≡ begun value (role_of kind.now) }
{
    match role_of(kind) {
        Some(role) => LexemeResult::Onward(LinePrefix::Steps(value, role, Path::new(alloc), false)),
        None => LexemeResult::Nowhere,
    }
}

/// Returns true if the lexeme is an equals sign.
fn is_equals(kind: &LexemeKind) -> bool
    ensures { result ≡ is_equals kind.now }
{
    match kind {
        LexemeKind::Symbol(Symbol::Equals) => true,
        _ => false,
    }
}

/// Returns the state after a complete path and an equals sign.
fn after_equals(alloc: Global, value: u64, role: Role, path: Path) -> LexemeResult
    ensures { result ≡ after_equals value role (Some path) }
{
    match role {
        Role::Set => LexemeResult::Literal(value, path),
        Role::Link => {
            LexemeResult::Onward(LinePrefix::Steps(
                value,
                Role::Source(path),
                Path::new(alloc),
                false,
            ))
        }
        Role::Graft => LexemeResult::Onward(LinePrefix::Other(value, path)),
        _ => LexemeResult::Nowhere,
    }
}

/// Parses the number of the value from which `graft` copies.
fn with_other(alloc: Global, value: u64, path: Path, kind: &LexemeKind) -> LexemeResult
    ensures { result ≡ with_other value path (number_of kind.now) }
{
    match number_of(kind) {
        Some(other) => {
            let role = Role::Part(path, other);
            LexemeResult::Onward(LinePrefix::Steps(value, role, Path::new(alloc), false))
        }
        None => LexemeResult::Nowhere,
    }
}

/// Parses a lexeme inside a path or directly after a path.
fn steps_next(
    alloc: Global,
    value: u64,
    role: Role,
    mut path: Path,
    after_dot: bool,
    kind: &LexemeKind,
) -> Result<LexemeResult, Memory>
    ensures { IfOk result (λ next. steps_next value role (at path after_dot) kind.now ≡ next) }
{
    if is_equals(kind) {
        if is_whole(&path, after_dot) {
            return Ok(after_equals(alloc, value, role, path));
        }
        return Ok(LexemeResult::Nowhere);
    }
    if step(&mut path, after_dot, kind)? {
        Ok(LexemeResult::Onward(LinePrefix::Steps(value, role, path, !after_dot)))
    } else {
        Ok(LexemeResult::Nowhere)
    }
}

/// Parses one lexeme and returns the next state of the line.
fn next_of(alloc: Global, prefix: LinePrefix, kind: &LexemeKind) -> Result<LexemeResult, Memory>
    ensures { IfOk result (λ next. next_of prefix kind.now ≡ next) }
{
    match prefix {
        LinePrefix::Start => Ok(valued(kind)),
        LinePrefix::Value(value) => Ok(begun(alloc, value, kind)),
        LinePrefix::Steps(value, role, path, after_dot) => {
            steps_next(alloc, value, role, path, after_dot, kind)
        }
        LinePrefix::Other(value, path) => Ok(with_other(alloc, value, path, kind)),
    }
}

/// Reads lexemes until the `=` of `set`, until a syntax error, or to the end of the line.
fn known(alloc: Global, lexemes: &[Lexeme]) -> Result<LineLexemes, Memory>
    ensures { IfOk result (IsKnown lexemes.now) }
{
    let mut prefix = LinePrefix::Start;
    for (position, lexeme) in lexemes.iter().enumerate() {
        match next_of(alloc, prefix, &lexeme.kind)? {
            LexemeResult::Onward(next) => prefix = next,
            LexemeResult::Literal(value, path) => return Ok(LineLexemes::Literal(
                value,
                path,
                position + 1,
            )),
            LexemeResult::Nowhere => return Ok(LineLexemes::Stuck(position)),
        }
    }
    Ok(LineLexemes::All(prefix))
}

/// Returns the request of a line that ends after a complete path, or `None` if a line with the role
/// `role` cannot end after the path.
fn action_of(role: Role, path: Path) -> Option<Action>
    ensures { result ≡ action_of role path }
{
    match role {
        Role::Source(target) => Some(Action::Edit(Edit::Link(target, path))),
        Role::Unshare => Some(Action::Edit(Edit::Unshare(path))),
        Role::Part(target, other) => Some(Action::Graft(target, other, path)),
        _ => None,
    }
}

/// Returns the line that ends after `prefix`, or `None` if no line can end after `prefix`.
fn ended(prefix: LinePrefix, number: usize) -> Option<ScriptLine>
    ensures { result ≡ ended_line number prefix }
{
    let LinePrefix::Steps(value, role, path, after_dot) = prefix else {
        return None;
    };
    if !is_whole(&path, after_dot) {
        return None;
    }
    match action_of(role, path) {
        Some(action) => Some(ScriptLine {
            number,
            value,
            action,
        }),
        None => None,
    }
}

/// Returns a `set` line whose literal consists of the lexemes from index `position` on.
fn set_line(
    number: usize,
    value: u64,
    path: Path,
    mut lexemes: Vec<Lexeme>,
    position: usize,
    end: usize,
) -> Result<ScriptLine, Memory>
    requires { position ≤ length lexemes.items }
    ensures { IfOk result
        (λ line. line
        ≡ record {
          number = number;
          value = value;
          action = actions.Edit (edits.Set path (drop position lexemes.items) end);
        }) }
{
    let literal = List::of(lexemes.split_off(position)?);
    Ok(ScriptLine {
        number,
        value,
        action: Action::Edit(Edit::Set(path, literal, end)),
    })
}

/// Returns the line. If the line copies from a value that does not come before the edited value,
/// returns `ScriptFault::Later`.
fn in_time(line: ScriptLine) -> Result<ScriptLine, ScriptFault>
    ensures { result ≡ in_time line }
{
    match &line.action {
        Action::Graft(_, other, _) if line.value <= *other => Err(ScriptFault::Later(line.number)),
        _ => Ok(line),
    }
}

/// Returns the line, given the result of reading the line's lexemes. The line must not be blank.
fn line_of(
    known: LineLexemes,
    lexemes: Vec<Lexeme>,
    number: usize,
    end: usize,
) -> Result<ScriptLine, ScriptFault>
    requires some { 0 < length lexemes.items }
    requires known { IsKnown lexemes.items known }
    ensures line { IfOk result (λ line. IsRead number lexemes.items end (Ok (Some line))) }
    ensures fault { IfErr result
        (UnlessMemory (λ fault. IsRead number lexemes.items end (Err fault))) }
{
    match known {
        LineLexemes::All(prefix) => match ended(prefix, number) {
            Some(line) => in_time(line),
            None => Err(ScriptFault::Syntax(number, end)),
        },
        LineLexemes::Literal(value, path, position) => {
            Ok(set_line(number, value, path, lexemes, position, end)?)
        }
        LineLexemes::Stuck(position) => Err(ScriptFault::Syntax(
            number,
            byte_of(lexemes.as_slice(), end, position),
        )),
    }
}

/// Parses the lexemes of a line. Returns `None` if the line has no lexemes.
fn read_lexemes(
    alloc: Global,
    lexemes: Vec<Lexeme>,
    number: usize,
    end: usize,
) -> Result<Option<ScriptLine>, ScriptFault>
    ensures line { IfOk result (λ line. IsRead number lexemes.items end (Ok line)) }
    ensures fault { IfErr result
        (UnlessMemory (λ fault. IsRead number lexemes.items end (Err fault))) }
{
    if lexemes.is_empty() {
        return Ok(None);
    }
    let known = known(alloc, lexemes.as_slice())?;
    match line_of(known, lexemes, number, end) {
        Ok(line) => Ok(Some(line)),
        Err(fault) => Err(fault),
    }
}

/// Parses line `number` of a script. Returns `None` if the line has no lexemes. Lexical errors come
/// before syntax errors.
pub fn read_line(
    alloc: Global,
    text: &[u8],
    number: usize,
) -> Result<Option<ScriptLine>, ScriptFault>
    ensures line { IfOk result (λ line. IsLineAnswer number text.now (Ok line)) }
    ensures fault { IfErr result
        (UnlessMemory (λ fault. IsLineAnswer number text.now (Err fault))) }
{
    match tokens(alloc, text) {
        Ok(lexemes) => read_lexemes(alloc, lexemes, number, text.len()),
        Err(fault) => Err(line_fault(number, fault)),
    }
}
