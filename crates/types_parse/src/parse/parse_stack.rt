//! The stack of open constructs. In the model, the innermost construct comes first in the list.

ghost use Rattle.std.specs.Prelude.{◌≡◌, List, [], ◌∷◌, reverse, IfOk, Option};
ghost use Rattle.types_parse.specs.declared.parse.open.OpenConstruct.{OpenConstruct};
ghost use Rattle.std.specs.Option.{option_copied};
ghost use Rattle.types_parse.specs.parse.PoppedConstruct.{Popped, first};

use crate::parse::open::OpenConstruct;
use base_data::model::Memory;
use std::alloc::Global;
use std::marker::Model;

/// The stack of open constructs. In memory, the innermost construct comes last.
#[derive(Drop)]
pub struct ParseStack {
    items: Vec<OpenConstruct>,
}

impl Model for ParseStack {
    ghost use Rattle.std.specs.Prelude.{List, reverse};
    ghost use Rattle.types_parse.specs.declared.parse.open.OpenConstruct.{OpenConstruct};

    ghost Value = { List OpenConstruct };

    ghost view = { λ s. reverse s.items.items };
}

impl ParseStack {
    pub fn new(alloc: Global) -> ParseStack
        ensures { result ≡ [] }
    {
        ParseStack {
            items: Vec::new(alloc),
        }
    }

    pub fn push(&mut self, frame: OpenConstruct) -> Result<(), Memory>
        ensures { IfOk result (λ _. self.new ≡ frame ∷ self.old) }
    {
        self.items.push(frame)?;
        Ok(())
    }

    pub fn pop(&mut self) -> Option<OpenConstruct>
        ensures { Popped self.old self.new result }
    {
        self.items.pop()
    }

    /// Returns the innermost open construct, or `None` if no construct is open.
    pub fn top(&self) -> Option<&OpenConstruct>
        ensures { option_copied result ≡ first self.now }
    {
        self.items.last()
    }
}
