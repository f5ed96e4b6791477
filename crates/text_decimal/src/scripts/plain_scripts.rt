//! The plain text of a script.

ghost use Rattle.std.specs.Prelude.{◌==◌, OnOk, IfOk};
ghost use Rattle.text_decimal.specs.scripts.PlainScripts.{IsLineWritten, IsPlainScript};

use crate::texts::{Decimal, write_plain_text};
use base_data::model::Memory;
use base_data::model::list::List;
use base_data::text::line_len;
use std::alloc::Global;

/// The plain text of a script, and the decimals of each of its lines.
#[derive(Drop)]
pub struct PlainScript {
    pub text: Vec<u8>,
    pub decimals: Vec<List<Decimal>>,
}

/// Appends the plain text of a line, and the list of its decimals.
fn write_line(alloc: Global, plain: &mut PlainScript, line: &[u8]) -> Result<(), Memory>
    ensures { OnOk result (IsLineWritten line.now plain.old plain.new) }
{
    let decimals = write_plain_text(alloc, &mut plain.text, line)?;
    plain.decimals.push(List::of(decimals))?;
    Ok(())
}

/// Returns the plain text of a script, and the decimals of each line.
pub fn plain_script(alloc: Global, text: &[u8]) -> Result<PlainScript, Memory>
    ensures { IfOk result (IsPlainScript text.now) }
{
    let mut plain = PlainScript {
        text: Vec::new(alloc),
        decimals: Vec::new(alloc),
    };
    let mut at = 0;
    loop {
        let rest = &text[at..];
        let len = line_len(rest);
        write_line(alloc, &mut plain, &rest[..len])?;
        if len == rest.len() {
            return Ok(plain);
        }
        plain.text.push(b'\n')?;
        at += len + 1;
    }
}
