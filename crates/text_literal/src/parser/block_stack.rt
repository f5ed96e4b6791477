//! The stack of open blocks, innermost first.

ghost use Rattle.std.specs.Prelude.{◌≡◌, ◌<◌, ◌≤◌, ◌+◌, ◌^◌, List, [], ◌∷◌, reverse, IfOk};
ghost use Rattle.text_literal.specs.parser.Openings.{types_in};
ghost use Rattle.text_literal.specs.parser.Underway.{Popped, IsAdvanced, if_open};

use crate::parser::opening::PartTypes;
use base_data::model::Memory;
use std::alloc::Global;
use std::marker::Model;

/// A block whose parts are being read.
#[derive(Clone, Copy)]
pub struct Opened<'a> {
    /// The number of the block's object in the heap.
    pub block: u64,
    /// The field index and the part index of the next part, and the number of parts still to be
    /// read.
    pub field: u64,
    pub part: usize,
    pub left: usize,
    /// The types of the parts. If a part has no type of its own, the part is read at the type of
    /// the block.
    pub types: PartTypes<'a>,
    pub at: usize,
}

impl<'a> Opened<'a> {
    /// Returns the block after the block's next part has begun.
    #[inline(always)]
    pub fn advanced(self) -> Opened<'a>
        requires left { 0 < self.left }
        requires few { self.field + self.left < 2 ^ 54 }
        requires within { self.part ≤ self.field }
        ensures { IsAdvanced self.entry result }
    {
        Opened {
            block: self.block,
            field: self.field + 1,
            part: self.part + 1,
            left: self.left - 1,
            types: self.types,
            at: self.at,
        }
    }

    /// Returns the type of the next part.
    #[inline(always)]
    pub fn next_type(&self) -> usize
        ensures { result ≡ types_in self.now.at self.now.types self.now.part }
    {
        match self.types {
            PartTypes::Listed(types) => match types.get(self.part) {
                Some(part) => *part,
                None => self.at,
            },
            PartTypes::Each(part) => part,
        }
    }
}

/// The stack of open blocks. In memory, the innermost block is last.
#[derive(Drop)]
pub struct BlockStack<'a> {
    items: Vec<Opened<'a>>,
}

impl<'a> Model for BlockStack<'a> {
    ghost use Rattle.std.specs.Prelude.{List, reverse};
    ghost use Rattle.text_literal.specs.declared.parser.block_stack.Opened.{Opened};

    ghost Value = { List Opened };

    ghost view = { λ s. reverse s.items.items };
}

impl<'a> BlockStack<'a> {
    pub fn new(alloc: Global) -> BlockStack<'a>
        ensures { result ≡ [] }
    {
        BlockStack {
            items: Vec::new(alloc),
        }
    }

    #[inline(always)]
    pub fn push(&mut self, block: Opened<'a>) -> Result<(), Memory>
        ensures { IfOk result (λ _. self.new ≡ block.entry ∷ self.old) }
    {
        self.items.reserve(1)?;
        self.items.push_reserved(block);
        Ok(())
    }

    /// Pushes the block back if parts of the block are still to be read. Fails with `Memory` if
    /// memory runs out.
    #[inline(always)]
    pub fn write_back(&mut self, block: Opened<'a>) -> Result<(), Memory>
        ensures { IfOk result (λ _. self.new ≡ if_open block.entry self.old) }
    {
        if block.left > 0 {
            self.push(block)?;
        }
        Ok(())
    }

    #[inline(always)]
    pub fn pop(&mut self) -> Option<Opened<'a>>
        ensures { Popped self.old self.new result }
    {
        self.items.pop()
    }
}
