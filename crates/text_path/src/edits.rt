//! Edits of values, as the lines of a script list them, and the errors of a script's text.

ghost use Rattle.std.specs.Prelude.{◌≡◌, ◌∷◌, [], IfOk, MatchOption};
ghost use Rattle.text_path.specs.LineOrder.{lines_of};
ghost use Rattle.text_path.specs.Uses.{IsUnused, IsLastUse};
ghost use Rattle.text_path.specs.ScriptAnswer.{line_fault};
ghost use Rattle.text_path.specs.declared.edits.ScriptFault.TheVariants as faults;

use crate::graft_uses::{last_use, uses_of};
use crate::line_order::{order_of, positions_of};
use base_data::model::Memory;
use base_data::model::list::List;
use base_data::model::path::Path;
use std::alloc::Global;
use std::marker::Model;
use types_lex::lexeme::{LexFault, Lexeme};

/// An edit at a path of a value.
#[derive(Drop)]
pub enum Edit {
    /// Replaces the part at the path by a new value. Holds the lexemes of the new value's literal,
    /// with their spans in the line, and the line's length in bytes.
    Set(Path, List<Lexeme>, usize),
    /// Replaces the part at the first path by the part at the second path. If the part is a
    /// reference, the two paths lead to one object afterwards.
    Link(Path, Path),
    /// Replaces the reference at the path by a reference to a copy of the object.
    Unshare(Path),
}

/// The request of one line of a script.
#[derive(Drop)]
pub enum Action {
    Edit(Edit),
    /// Replaces the part at the first path by a copy of a part of an earlier value. Holds the
    /// earlier value's number and the path in the earlier value.
    Graft(Path, u64, Path),
}

/// A line of a script that is not blank.
#[derive(Drop)]
pub struct ScriptLine {
    /// The line number, counted from 1, where blank lines count too.
    pub number: usize,
    /// The number of the value that is edited, counted from 0.
    pub value: u64,
    pub action: Action,
}

/// The edits of a script's text, in the order of the lines.
#[derive(Drop)]
pub struct Script {
    lines: List<ScriptLine>,
    /// For each line, the number of the edited value and the line's index in `lines`, sorted by
    /// value. Lines of one value keep their order.
    order: Vec<(u64, u64)>,
    /// For each line that copies, the number of the source value and the number of the edited
    /// value, sorted by the source value.
    uses: Vec<(u64, u64)>,
}

impl Model for Script {
    ghost use Rattle.text_path.specs.LineOrder.{ScriptLines, IsOrder};
    ghost use Rattle.text_path.specs.Uses.{AreUses};

    ghost Value = { ScriptLines };

    ghost view = { λ s. record { lines = s.lines } };

    ghost invariant = { λ s. IsOrder s.lines s.order.items × AreUses s.lines s.uses.items };
}

impl Script {
    /// Builds the script of the lines `lines`. Fails only if memory runs out.
    pub fn of(alloc: Global, lines: List<ScriptLine>) -> Result<Script, Memory>
        ensures { IfOk result (λ script. script.lines ≡ lines) }
    {
        let order = order_of(alloc, lines.as_slice())?;
        let uses = uses_of(alloc, lines.as_slice())?;
        Ok(Script { lines, order, uses })
    }

    /// Returns all lines of the script.
    pub fn as_slice(&self) -> &[ScriptLine]
        ensures { result.now ≡ self.now.lines }
    {
        self.lines.as_slice()
    }

    /// Returns the lines that edit the value with number `value`. Finds the lines by binary search.
    pub fn lines_of(&self, value: u64) -> ValueLines<'_>
        ensures { result ≡ lines_of value self.now.lines }
    {
        ValueLines {
            lines: self.lines.as_slice(),
            positions: positions_of(self.order.as_slice(), value),
        }
    }

    /// Returns the greatest number of a value into which a line copies a part of value `number`.
    /// Returns `None` if no line copies from value `number`. Finds the lines by binary search.
    pub fn last_use(&self, number: u64) -> Option<u64>
        ensures { MatchOption result (IsUnused self.now.lines number)
            (IsLastUse self.now.lines number) }
    {
        last_use(self.uses.as_slice(), number)
    }
}

/// An iterator over the lines that edit one value, in the order of the script.
#[derive(Drop)]
pub struct ValueLines<'a> {
    lines: &'a [ScriptLine],
    positions: &'a [(u64, u64)],
}

impl<'a> Model for ValueLines<'a> {
    ghost use Rattle.std.specs.Prelude.{List};
    ghost use Rattle.text_path.specs.declared.edits.ScriptLine.{ScriptLine};
    ghost use Rattle.text_path.specs.LineOrder.{AreWithin, lines_at};

    ghost Value = { List ScriptLine };

    ghost view = { λ l. lines_at l.lines.now l.positions.now };

    ghost invariant = { λ l. AreWithin l.lines.now l.positions.now };
}

impl<'a> ValueLines<'a> {
    /// Returns the next line and removes the line from the iterator.
    pub fn next(&mut self) -> Option<&'a ScriptLine>
        ensures { MatchOption result (self.old ≡ []) (λ line. self.old ≡ line.now ∷ self.new) }
    {
        match self.positions.split_first() {
            Some((position, more)) => {
                self.positions = more;
                Some(&self.lines[position.1 as usize])
            }
            None => None,
        }
    }
}

/// The first error in the text of a script. Line numbers count from 1.
#[derive(Clone, Copy)]
pub enum ScriptFault {
    /// Lexical error in a line. Holds the line number.
    Lex(usize, LexFault),
    /// Syntax error in a line. The first number is the line number. The second number is the byte
    /// offset in the line of the first lexeme at which no line continues, or the line's length.
    Syntax(usize, usize),
    /// A `graft` line copies from a value that does not come before the edited value. Holds the
    /// line number.
    Later(usize),
    /// Out of memory.
    Memory,
}

impl From<Memory> for ScriptFault {
    ghost from_gives = { λ _ e. e ≡ faults.Memory };

    fn from(_e: Memory) -> ScriptFault {
        ScriptFault::Memory
    }
}

/// Returns the error of a script for a lexical error in a line.
pub fn line_fault(number: usize, fault: LexFault) -> ScriptFault
    ensures { result ≡ line_fault number fault }
{
    match fault {
        LexFault::Memory => ScriptFault::Memory,
        _ => ScriptFault::Lex(number, fault),
    }
}
