//! The stack of open broken brackets. A bracket is broken if its parts are on separate lines.

ghost use Rattle.std.specs.Prelude.{◌≡◌, [], ◌∷◌, IfOk};
ghost use Rattle.text_pretty.specs.Stack.{first, others};

use base_data::model::Memory;
use std::alloc::Global;
use std::marker::Model;

/// An open broken bracket. The number is the indentation of the lines that begin with a separator
/// of its parts.
#[derive(Clone, Copy)]
pub enum BrokenBracket {
    /// A bracket in which each part begins a line. The closing bracket begins a line, too.
    Block(u8),
    /// The bracket around the first item and the remaining items of a list. The remaining items
    /// begin a line.
    Chain(u8),
}

/// The open broken brackets. The innermost one is last in memory.
#[derive(Drop)]
pub struct Brackets {
    items: Vec<BrokenBracket>,
}

impl Model for Brackets {
    ghost use Rattle.std.specs.Prelude.{List, reverse};
    ghost use Rattle.text_pretty.specs.declared.broken_bracket.BrokenBracket.{BrokenBracket};

    ghost Value = { List BrokenBracket };

    ghost view = { λ s. reverse s.items.items };
}

impl Brackets {
    pub fn new(alloc: Global) -> Brackets
        ensures { result ≡ [] }
    {
        Brackets {
            items: Vec::new(alloc),
        }
    }

    pub fn push(&mut self, bracket: BrokenBracket) -> Result<(), Memory>
        ensures { IfOk result (λ _. self.new ≡ bracket ∷ self.old) }
    {
        self.items.push(bracket)?;
        Ok(())
    }

    /// Closes the innermost bracket, if a bracket is open.
    pub fn pop(&mut self)
        ensures { self.new ≡ others self.old }
    {
        let _ = self.items.pop();
    }

    /// Returns the innermost bracket.
    pub fn top(&self) -> Option<BrokenBracket>
        ensures { result ≡ first self.now }
    {
        self.items.last().copied()
    }
}
