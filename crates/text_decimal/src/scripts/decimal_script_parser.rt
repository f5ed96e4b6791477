//! The parser for scripts with decimals.

ghost use Rattle.std.specs.Prelude.{Ok, Err, IfOk, IfErr};
ghost use Rattle.text_path.specs.ScriptAnswer.{UnlessMemory};
ghost use Rattle.text_decimal.specs.scripts.Scripts.{IsGivenAnswer};

use crate::scripts::given_offsets::{given_fault, given_lines};
use crate::scripts::plain_scripts::plain_script;
use std::alloc::Global;
use text_path::{Script, ScriptFault, read_script};

/// Parses a script in which decimals may denote doubles. Errors carry offsets in the original
/// lines.
pub fn read_given_script(alloc: Global, text: &[u8]) -> Result<Script, ScriptFault>
    ensures script { IfOk result (λ script. IsGivenAnswer text.now (Ok script)) }
    ensures fault { IfErr result (UnlessMemory (λ fault. IsGivenAnswer text.now (Err fault))) }
{
    let plain = plain_script(alloc, text)?;
    match read_script(alloc, plain.text.as_slice()) {
        Ok(script) => {
            let lines = given_lines(alloc, plain.decimals.as_slice(), script.as_slice())?;
            Ok(Script::of(alloc, lines)?)
        }
        Err(fault) => Err(given_fault(plain.decimals.as_slice(), fault)),
    }
}
