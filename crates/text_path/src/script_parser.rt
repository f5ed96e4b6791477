//! The parser for a script.

ghost use Rattle.std.specs.Prelude.{◌≡◌, ◌++◌, ◌==◌, Option, Ok, Err, IfOk, IfErr, OnOk, Result};
ghost use Rattle.std.specs.Prelude.{option_to_list};
ghost use Rattle.text_path.specs.ScriptAnswer.{AreEdits, IsScriptAnswer, UnlessMemory};
ghost use Rattle.text_path.specs.ScriptAnswer.{ReportsScript};
ghost use Rattle.text_path.specs.declared.edits.Script.{Script};
ghost use Rattle.text_path.specs.declared.edits.ScriptFault.{ScriptFault};

use crate::edits::{Script, ScriptFault, ScriptLine};
use crate::script_line_parser::read_line;
use base_data::model::Memory;
use base_data::model::list::List;
use base_data::text::line_len;
use std::alloc::Global;

/// Appends a line, if `line` is a line.
fn add(lines: &mut List<ScriptLine>, line: Option<ScriptLine>) -> Result<(), Memory>
    ensures { OnOk result (lines.new ≡ lines.old ++ option_to_list line) }
{
    match line {
        Some(line) => lines.push(line),
        None => Ok(()),
    }
}

/// Parses the lines of a script. Stops at the first line with an error.
fn read(alloc: Global, text: &[u8]) -> Result<List<ScriptLine>, ScriptFault>
    ensures lines { IfOk result (λ lines. AreEdits 1 text.now (Ok lines)) }
    ensures fault { IfErr result (UnlessMemory (λ fault. AreEdits 1 text.now (Err fault))) }
{
    let mut lines = List::new(alloc);
    let mut number: usize = 1;
    let mut at: usize = 0;
    loop {
        let rest = &text[at..];
        let len = line_len(rest);
        let line = read_line(alloc, &rest[..len], number)?;
        add(&mut lines, line)?;
        if len == rest.len() {
            return Ok(lines);
        }
        at += len + 1;
        number += 1;
    }
}

/// Parses a script. If several lines have errors, reports the error of the first such line.
pub fn read_script(alloc: Global, text: &[u8]) -> Result<Script, ScriptFault>
    // If memory does not run out, the script or the error is the text's answer.
    ensures script { IfOk result (λ script. IsScriptAnswer text.now (Ok script)) }
    ensures fault { IfErr result (UnlessMemory (λ fault. IsScriptAnswer text.now (Err fault))) }

    // If the text has an answer and memory does not run out, the answer is returned.
    ensures only { (answer : Result Script ScriptFault) → IsScriptAnswer text.now answer
        → ReportsScript result answer }
{
    match read(alloc, text) {
        Ok(lines) => Ok(Script::of(alloc, lines)?),
        Err(fault) => Err(fault),
    }
}
