//! Pretty-printed texts.

ghost use Rattle.std.specs.Prelude.{◌≡◌, ◌++◌, OnOk, replicate};
ghost use Rattle.text_pretty.specs.PrettyLines.{line_text, pretty};

use crate::layout::Layout;
use base_data::model::Memory;
use std::alloc::Global;

/// Appends the pretty text of `plain`, which begins at the first column of a line.
pub fn write_pretty(text: &mut Vec<u8>, alloc: Global, plain: &[u8]) -> Result<(), Memory>
    ensures { OnOk result (text.new.items ≡ text.old.items ++ pretty plain.now) }
{
    let mut layout = Layout::new(alloc);
    for i in 0..plain.len() {
        let line = layout.line_before(plain[i]);
        write_line(text, line)?;
        text.push(plain[i])?;
        layout.go_over(line, plain[i], &plain[i + 1..])?;
    }
    Ok(())
}

/// Appends a line feed and the indentation, if a line begins at the current position.
fn write_line(text: &mut Vec<u8>, line: Option<u8>) -> Result<(), Memory>
    ensures { OnOk result (text.new.items ≡ text.old.items ++ line_text line) }
{
    match line {
        None => Ok(()),
        Some(indent) => {
            text.push(b'\n')?;
            write_blanks(text, indent)
        }
    }
}

/// Appends `many` blanks.
fn write_blanks(text: &mut Vec<u8>, many: u8) -> Result<(), Memory>
    ensures { OnOk result (text.new.items ≡ text.old.items ++ replicate many 32) }
{
    for _blank in 0..many {
        text.push(b' ')?;
    }
    Ok(())
}
