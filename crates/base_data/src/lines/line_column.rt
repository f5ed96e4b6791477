//! The line and the column of a position.

ghost use Rattle.std.specs.Prelude.{◌≡◌};
ghost use Rattle.base_data.specs.lines.Lines.{line_after, column_after, line_of, column_of};

/// A line, and a column in the line, both counted from 1.
#[derive(Clone, Copy)]
pub struct LineColumn {
    pub line: usize,
    pub column: usize,
}

/// Returns the line and column of the position directly after the bytes `before`.
fn spot_after(before: &[u8]) -> LineColumn
    ensures line { result.line ≡ line_after before.now }
    ensures column { result.column ≡ column_after before.now }
{
    let mut line = 1;
    let mut column = 1;
    for b in before {
        if *b == b'\n' {
            line += 1;
            column = 1;
        } else {
            column += 1;
        }
    }
    LineColumn { line, column }
}

/// Returns the line and column of a byte of a text. If `position` is beyond the end of the text,
/// returns the line and column of the end.
pub fn spot_of(text: &[u8], position: usize) -> LineColumn
    ensures line { result.line ≡ line_of text.now position }
    ensures column { result.column ≡ column_of text.now position }
{
    if position < text.len() {
        spot_after(&text[..position])
    } else {
        spot_after(text)
    }
}
