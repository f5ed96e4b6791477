//! Parses the FILE, the TYPE and the SCRIPT of a run, and returns the exit reasons for texts that
//! are refused.

ghost use Rattle.std.specs.Prelude.{ℕ, List as Seq, Ok, Err, IfOk, IfErr, codes};
ghost use Rattle.types_spec.specs.types.WellFormed.{AreWellFormed};
ghost use Rattle.cli_spec.specs.Outcome.{opened, asked_with};
ghost use Rattle.cli_spec.specs.declared.exit.Exit.TheVariants.{Script as script_line};
ghost use Rattle.base_io.specs.StreamState.{change};
ghost use Rattle.text_path.specs.ScriptAnswer.{UnlessMemory};
ghost use Rattle.run_types.specs.GatheredFile.{taken_of};
ghost use Rattle.base_data.specs.lines.Lines.{position_on};
ghost use Rattle.types_wellformed.specs.declarations.DeclarationFaultText.{lexer_text as text_of_lexer};
ghost use Rattle.types_wellformed.specs.declarations.DeclarationFaultText.{placed_text};
ghost use Rattle.cli_errors.specs.Exits.{IsOrMemory};
ghost use Rattle.run_types.specs.RequestedTexts.{IsDeclarationsExit, IsTypeExit, IsPathExit};
ghost use Rattle.run_types.specs.RequestedTexts.{IsScriptExit};
ghost use Rattle.run_types.specs.RequestedTexts.{IsAnswerOf, GivesDeclarations, GivesRequested};
ghost use Rattle.run_types.specs.RequestedTexts.{GivesType};
ghost use Rattle.run_types.specs.RequestedTexts.{GivesScript, FindsTypeIn, FindsScriptIn};

use crate::fetch::{Fetch, fetch_file};
use crate::gathered_file::{Gathered, InputEnd};
use crate::requested::{Prepared, Requested};
use base_data::lines::PositionStyle;
use base_data::model::list::List;
use base_io::Opener;
use cli_errors::exit_constructors::{refused_line, refused_type, unopened_file};
use cli_spec::exit::Exit;
use std::alloc::Global;
use text_decimal::scripts::read_given_script;
use text_path::{PathFault, Script, ScriptFault, read_script};
use types_build::builder::{TypeFault, build};
use types_lex::lexeme::LexFault;
use types_spec::types::decl::Decl;
use types_wellformed::declarations::{
    DeclFault, fault_text, lexer_text, read_decls, read_type, syntax_text,
};

/// Returns the exit reason for declarations that are refused.
fn declarations_exit(alloc: Global, lines: bool, text: &[u8], fault: &DeclFault) -> Exit
    ensures { IsDeclarationsExit lines text.now fault.now result }
{
    match fault_text(alloc, lines, text, fault) {
        Ok(refusal) => Exit::Declarations(refusal),
        Err(_) => Exit::Memory,
    }
}

/// Returns the exit reason for a type that is refused.
fn type_exit(alloc: Global, lines: bool, text: &[u8], fault: &DeclFault) -> Exit
    ensures { IsTypeExit lines text.now fault.now result }
{
    match fault_text(alloc, lines, text, fault) {
        Ok(refusal) => Exit::RequestedType(refusal),
        Err(_) => Exit::Memory,
    }
}

/// Returns the exit reason for a PATH that is no valid path, or `Memory`.
pub fn path_exit(fault: PathFault) -> Exit
    ensures { IsPathExit fault result }
{
    match fault {
        PathFault::Memory => Exit::Memory,
        _ => Exit::BadPath,
    }
}

/// Returns the exit reason for a line of a SCRIPT with a lexical error.
fn lexer_exit(alloc: Global, lines: bool, number: usize, fault: LexFault) -> Exit
    ensures { IsOrMemory (script_line number (text_of_lexer (position_on lines number) fault))
        result }
{
    match lexer_text(alloc, &PositionStyle::of_line(lines, number as u64), fault) {
        Ok(refusal) => Exit::Script(number, refusal),
        Err(_) => Exit::Memory,
    }
}

/// Returns the exit reason for a line of a SCRIPT with a syntax error.
fn syntax_exit(alloc: Global, lines: bool, number: usize, position: usize) -> Exit
    ensures { IsOrMemory
        (script_line number
        (placed_text (codes "Syntax") (position_on lines number position))) result }
{
    match syntax_text(
        alloc,
        &PositionStyle::of_line(lines, number as u64),
        position,
    ) {
        Ok(refusal) => Exit::Script(number, refusal),
        Err(_) => Exit::Memory,
    }
}

/// Returns the exit reason for a SCRIPT that is refused.
fn script_exit(alloc: Global, lines: bool, fault: ScriptFault) -> Exit
    ensures { IsScriptExit lines fault result }
{
    match fault {
        ScriptFault::Lex(number, fault) => lexer_exit(alloc, lines, number, fault),
        ScriptFault::Syntax(number, position) => syntax_exit(alloc, lines, number, position),
        ScriptFault::Later(number) => refused_line(alloc, number, b"Later"),
        ScriptFault::Memory => Exit::Memory,
    }
}

// Parses the declarations.
fn read_declarations(alloc: Global, text: &[u8], lines: bool) -> Result<List<Decl>, Exit>
    ensures { GivesDeclarations lines text.now result }
{
    match read_decls(alloc, text) {
        Ok(decls) => Ok(decls),
        Err(fault) => Err(declarations_exit(alloc, lines, text, &fault)),
    }
}

// Parses the type over the declarations and creates the table of the type.
fn read_requested(
    alloc: Global,
    decls: List<Decl>,
    type_text: &[u8],
    lines: bool,
    decimal: bool,
) -> Result<Requested, Exit>
    requires { AreWellFormed decls }
    ensures { GivesRequested decls (asked_with type_text.now lines decimal) result }
{
    let ty = match read_type(alloc, decls.as_slice(), type_text) {
        Ok(ty) => ty,
        Err(fault) => return Err(type_exit(alloc, lines, type_text, &fault)),
    };
    match build(alloc, decls.as_slice(), &ty) {
        Ok(table) => Ok(Requested::new(Prepared {
            decls,
            ty,
            table,
            lines,
            decimal,
        })),
        Err(TypeFault::TooManyTypes) => Err(refused_type(alloc, b"TooManyTypes")),
        Err(TypeFault::Memory) => Err(Exit::Memory),
    }
}

/// Parses declarations that were read from a file, and a type over the declarations. If a text is
/// refused, if the file was not read to its end, or if memory runs out, fails with the exit reason.
pub fn read_gathered(
    alloc: Global,
    gathered: &Gathered,
    type_text: &str,
    lines: bool,
    decimal: bool,
) -> Result<Requested, Exit>
    ensures { (file : Seq ℕ)
        → GivesType file (asked_with type_text.now lines decimal) (opened (taken_of gathered.now))
        result }
{
    match gathered.until {
        InputEnd::Fault => return Err(Exit::ReadFault),
        InputEnd::Length => return Err(Exit::TooLong),
        InputEnd::End => {}
    }
    match read_declarations(alloc, gathered.bytes.as_slice(), lines) {
        Ok(decls) => read_requested(alloc, decls, type_text.as_bytes(), lines, decimal),
        Err(exit) => Err(exit),
    }
}

/// Fetches FILE, and parses FILE and TYPE. If the file cannot be read, if a text is refused, or if
/// memory runs out, fails with the exit reason.
pub fn find_type<O: Opener>(
    alloc: Global,
    files: &mut O,
    file: &str,
    type_text: &str,
    lines: bool,
    decimal: bool,
) -> Result<Requested, Exit>
    ensures { FindsTypeIn (change (O.state files.old) (O.state files.new)) file.now
        (asked_with type_text.now lines decimal) result }
{
    match fetch_file(alloc, files, file) {
        Ok(Fetch::Opened(gathered)) => read_gathered(alloc, &gathered, type_text, lines, decimal),
        Ok(Fetch::Missing) => Err(unopened_file(alloc, file)),
        Ok(Fetch::Failed) => Err(unopened_file(alloc, file)),
        Err(_) => Err(Exit::Memory),
    }
}

// Parses the text of a script. If `decimal` is true, then the text may contain doubles as decimals.
fn read_edits(alloc: Global, text: &[u8], decimal: bool) -> Result<Script, ScriptFault>
    ensures script { IfOk result (λ script. IsAnswerOf decimal text.now (Ok script)) }
    ensures fault { IfErr result
        (UnlessMemory (λ fault. IsAnswerOf decimal text.now (Err fault))) }
{
    if decimal {
        read_given_script(alloc, text)
    } else {
        read_script(alloc, text)
    }
}

// Parses the lines of a script that was read from a file.
fn read_lines(
    alloc: Global,
    gathered: &Gathered,
    lines: bool,
    decimal: bool,
) -> Result<Script, Exit>
    ensures { (name : Seq ℕ)
        → GivesScript lines decimal name (opened (taken_of gathered.now)) result }
{
    match gathered.until {
        InputEnd::Fault => return Err(Exit::ReadFault),
        InputEnd::Length => return Err(Exit::TooLong),
        InputEnd::End => {}
    }
    match read_edits(alloc, gathered.bytes.as_slice(), decimal) {
        Ok(script) => Ok(script),
        Err(fault) => Err(script_exit(alloc, lines, fault)),
    }
}

/// Fetches and parses SCRIPT. If the file cannot be read, if the text is refused, or if memory runs
/// out, fails with the exit reason.
pub fn find_script<O: Opener>(
    alloc: Global,
    files: &mut O,
    name: &str,
    lines: bool,
    decimal: bool,
) -> Result<Script, Exit>
    ensures { FindsScriptIn (change (O.state files.old) (O.state files.new)) lines decimal name.now
        result }
{
    match fetch_file(alloc, files, name) {
        Ok(Fetch::Opened(gathered)) => read_lines(alloc, &gathered, lines, decimal),
        Ok(Fetch::Missing) => Err(unopened_file(alloc, name)),
        Ok(Fetch::Failed) => Err(unopened_file(alloc, name)),
        Err(_) => Err(Exit::Memory),
    }
}
