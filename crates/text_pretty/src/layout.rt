//! The positions in a text at which lines begin.

ghost use Rattle.std.specs.Prelude.{◌≡◌, OnOk};
ghost use Rattle.text_pretty.specs.PrettyLines.{inner, base, child_indent, closing_line, line_at};
ghost use Rattle.text_pretty.specs.PrettyLines.{line_before, left_behind, passed, opened};
ghost use Rattle.text_pretty.specs.PrettyLines.{list_room};
ghost use Rattle.text_pretty.specs.PrettyLines.{marked, behind, start};

use crate::break_point::{BreakPoint, ByteRole, mark_of, next_break_point};
use crate::broken_bracket::{Brackets, BrokenBracket};
use crate::fit::{bytes_to_close, closing_length};
use base_data::model::Memory;
use std::alloc::Global;

/// The state at a position in a text, determined by the bytes before it.
#[derive(Drop)]
pub struct Layout {
    pub break_point: BreakPoint,
    // The number of bytes that still fit the line.
    pub left: usize,
    // The number of bytes left of a bracket that fits its line, or 0 outside of such a bracket.
    pub flat: usize,
    // True if the byte before the position opened a broken bracket.
    pub fresh: bool,
    // True if the position is right after a separator of two parts.
    pub parted: bool,
    // The open broken brackets.
    pub brackets: Brackets,
}

/// Returns the indentation of the contents of a bracket with this indentation.
fn inner(indent: u8) -> u8
    ensures { result ≡ inner indent }
{
    if indent < 38 { indent + 2 } else { 40 }
}

/// Returns the indentation of a bracket, or 0 if there is none.
fn base(top: Option<BrokenBracket>) -> u8
    ensures { result ≡ base top }
{
    match top {
        None => 0,
        Some(BrokenBracket::Block(indent)) => indent,
        Some(BrokenBracket::Chain(indent)) => indent,
    }
}

/// Returns the indentation of a bracket that opens in the bracket `top`, or outside of all
/// brackets. `parted` is true after a separator.
fn child_indent(parted: bool, top: Option<BrokenBracket>) -> u8
    ensures { result ≡ child_indent parted top }
{
    match top {
        None => 0,
        Some(BrokenBracket::Block(indent)) => inner(indent),
        Some(BrokenBracket::Chain(indent)) => { if parted { indent } else { inner(indent) } }
    }
}

/// Returns the indentation of the line that begins with this closing bracket, if the closing
/// bracket begins a line.
fn closing_line(left: usize, byte: u8, top: Option<BrokenBracket>) -> Option<u8>
    ensures { result ≡ closing_line left byte top }
{
    match top {
        None => Some(0),
        Some(BrokenBracket::Block(indent)) => Some(indent),
        Some(BrokenBracket::Chain(indent)) => {
            if left < closing_length(byte) {
                Some(indent)
            } else {
                None
            }
        }
    }
}

/// Returns the number of bytes that fit the line after one more byte.
fn left_behind(line: Option<u8>, left: usize) -> usize
    ensures { result ≡ left_behind line left }
{
    match line {
        None => left.saturating_sub(1),
        Some(indent) => 80usize
            .saturating_sub(usize::from(indent))
            .saturating_sub(1),
    }
}

impl Layout {
    /// Returns the state before a text.
    pub fn new(alloc: Global) -> Layout
        ensures { result ≡ start }
    {
        Layout {
            break_point: BreakPoint::Outside,
            left: 80,
            flat: 0,
            fresh: false,
            parted: false,
            brackets: Brackets::new(alloc),
        }
    }

    // Returns the indentation of the line that begins with this byte, if the byte begins a line.
    // The byte has the role `mark`, and is outside of brackets that fit their line.
    fn line_at(&self, mark: ByteRole, byte: u8) -> Option<u8>
        ensures { result ≡ line_at self.now mark byte }
    {
        let top = self.brackets.top();
        match mark {
            ByteRole::Parts => Some(base(top)),
            ByteRole::Closes => closing_line(self.left, byte, top),
            _ => {
                if self.fresh && byte != b' ' {
                    Some(inner(base(top)))
                } else {
                    None
                }
            }
        }
    }

    /// Returns the indentation of the line that begins with the next byte, if the next byte begins
    /// a line.
    pub fn line_before(&self, byte: u8) -> Option<u8>
        ensures { result ≡ line_before self.now byte }
    {
        if self.flat > 0 {
            return None;
        }
        self.line_at(mark_of(self.break_point, byte), byte)
    }

    // Advances over a byte, without regard to the byte's role.
    fn pass(&mut self, line: Option<u8>, byte: u8)
        ensures { self.new ≡ passed line byte self.old }
    {
        self.left = left_behind(line, self.left);
        self.break_point = next_break_point(self.break_point, byte);
        self.flat = self.flat.saturating_sub(1);
        self.fresh = false;
    }

    // Opens a bracket. If the bracket fits its line, `room` is the bracket's number of bytes, and
    // otherwise 0.
    fn enter(&mut self, room: usize, fresh: bool, bracket: BrokenBracket) -> Result<(), Memory>
        ensures { OnOk result (self.new ≡ opened room fresh bracket self.old) }
    {
        self.parted = false;
        if room > 0 {
            self.flat = room;
            return Ok(());
        }
        self.fresh = fresh;
        self.brackets.push(bracket)
    }

    // Returns the number of bytes to the end of a list, if these bytes fit the line, and otherwise
    // 0. The remaining items of a broken list are broken, too.
    fn list_room(&self, top: Option<BrokenBracket>, bytes: &[u8]) -> usize
        ensures { result ≡ list_room self.now top bytes.now }
    {
        match top {
            Some(BrokenBracket::Chain(_)) if self.parted => 0,
            _ => bytes_to_close(self.left, self.break_point, bytes),
        }
    }

    // Updates the state for the role `mark` of the byte that was passed. `bytes` are the bytes
    // after the passed byte.
    fn meet(&mut self, mark: ByteRole, bytes: &[u8]) -> Result<(), Memory>
        ensures { OnOk result (self.new ≡ marked mark bytes.now self.old) }
    {
        let top = self.brackets.top();
        let indent = child_indent(self.parted, top);
        match mark {
            ByteRole::Opens => {
                let room = bytes_to_close(self.left, self.break_point, bytes);
                self.enter(room, true, BrokenBracket::Block(indent))
            }
            ByteRole::OpensList => {
                let room = self.list_room(top, bytes);
                self.enter(room, false, BrokenBracket::Chain(indent))
            }
            ByteRole::Parts => {
                self.parted = true;
                Ok(())
            }
            ByteRole::Closes => {
                self.parted = false;
                self.brackets.pop();
                Ok(())
            }
            ByteRole::Other => Ok(()),
        }
    }

    /// Advances over a byte and updates the state for the byte's role. `bytes` are the bytes after
    /// the passed byte.
    pub fn go_over(&mut self, line: Option<u8>, byte: u8, bytes: &[u8]) -> Result<(), Memory>
        ensures { OnOk result (self.new ≡ behind line byte bytes.now self.old) }
    {
        let mark = mark_of(self.break_point, byte);
        let is_flat = self.flat > 0;
        self.pass(line, byte);
        if is_flat {
            return Ok(());
        }
        self.meet(mark, bytes)
    }
}
