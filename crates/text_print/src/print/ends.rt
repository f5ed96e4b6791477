//! The text after the parts of a block, encoded in one byte. The byte `]` stands for the closing
//! bracket of an array.

ghost use Rattle.std.specs.Prelude.{ℕ, List as Seq, ◌≡◌, ◌++◌, OnOk};
ghost use Rattle.text_print.specs.leaves.Frames.{named_frame};
ghost use Rattle.text_print.specs.leaves.FrameView.{frame_in};
ghost use Rattle.text_print.specs.print.PrintLevels.{end_text};

use crate::leaves::{Frame, write_few};
use base_data::model::Memory;
use base_data::model::list::List;

/// Returns the end that encodes the text after the parts of a frame.
#[inline(always)]
pub fn end_of(frame: &Frame<'_>) -> u8
    ensures { end_text result ≡ (frame_in frame.now).closing }
{
    match *frame {
        Frame::Constructor(names) => end_of_fields(names.fields.as_slice()),
        Frame::Fields(fields) => end_of_fields(fields),
        Frame::Tagged(_) => b')',
        Frame::Array => b']',
    }
}

// Returns the end that encodes the text after the last field, given the names of the fields.
#[inline(always)]
fn end_of_fields(fields: &[List<u8>]) -> u8
    ensures { (name : Seq ℕ) → end_text result ≡ (named_frame name fields.now).closing }
{
    if fields.is_empty() { b')' } else { b'}' }
}

/// Appends the text that an end encodes.
#[inline(always)]
pub fn write_end(text: &mut Vec<u8>, end: u8) -> Result<(), Memory>
    ensures { OnOk result (text.new.items ≡ text.old.items ++ end_text end) }
{
    if end == b']' {
        return write_few(text, b"|]");
    }
    Ok(text.push(end)?)
}
