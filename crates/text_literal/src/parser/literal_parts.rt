//! Reads the parts of the blocks of a literal, in order.

ghost use Rattle.std.specs.Prelude.{ℕ, ◌≡◌, ◌<◌, ◌∷◌, [], List, Result, length, take, IfOk, IfErr};
ghost use Rattle.base_data.specs.declared.model.value.Obj.{Obj};
ghost use Rattle.text_literal.specs.parser.LiteralReading.{LiteralRefusal};
ghost use Rattle.text_literal.specs.parser.Underway.{IsText, MayRefuse, IsUnderway, CanGoOn};
ghost use Rattle.text_literal.specs.parser.Underway.{Finishes};

use crate::parser::block_stack::{BlockStack, Opened};
use crate::parser::literal_fault::LiteralFault;
use crate::parser::literal_text::LiteralText;
use crate::parser::part::begin;
use marshal_heap::heap::Heap;
use std::alloc::Global;

/// Reads the literal at node `j` as the next part of a block. Returns the index of the next node.
#[inline(always)]
fn read_part<'a>(
    alloc: Global,
    text: &LiteralText<'a>,
    heap: &mut Heap,
    labels: &mut Vec<u64>,
    stack: &mut BlockStack<'a>,
    block: Opened<'a>,
    j: usize,
) -> Result<usize, LiteralFault>
    requires text { IsText text.now }
    requires underway { CanGoOn text.now (block ∷ stack.old) j heap.old labels.old.items }
    ensures underway { (old : List Obj) (outcome : Result (List Obj) (LiteralRefusal ℕ))
        → IsUnderway text.now old outcome (block.entry ∷ stack.old) j heap.old labels.old.items
        → IfOk result
        (λ next. IsUnderway text.now old outcome stack.new next heap.new labels.new.items) }
    ensures refused { (old : List Obj) (outcome : Result (List Obj) (LiteralRefusal ℕ))
        → IsUnderway text.now old outcome (block.entry ∷ stack.old) j heap.old labels.old.items
        → IfErr result (MayRefuse text.now.lexemes.now text.now.end outcome) }
    ensures kept { (old : List Obj) (outcome : Result (List Obj) (LiteralRefusal ℕ))
        → IsUnderway text.now old outcome (block.entry ∷ stack.old) j heap.old labels.old.items
        → take (length old) heap.new ≡ old }
    ensures onward { IfOk result (λ next. j < next) }
    ensures inside { j < length text.now.nodes.now }
{
    let begun = begin(alloc, text, heap, labels, j, block.next_type())?;
    heap.set(block.block, block.field, begun.value);
    stack.write_back(block.advanced())?;
    match begun.inner {
        Some(inner) => {
            stack.push(inner)?;
            Ok(j + 1)
        }
        None => Ok(text.ends[j] as usize),
    }
}

/// Reads the parts of a block, and the parts inside these parts, from node 1 on.
pub fn read_parts<'a>(
    alloc: Global,
    text: &LiteralText<'a>,
    heap: &mut Heap,
    labels: &mut Vec<u64>,
    block: Opened<'a>,
) -> Result<(), LiteralFault>
    requires text { IsText text.now }
    requires underway { CanGoOn text.now (block ∷ []) 1 heap.old labels.old.items }
    ensures finished { (old : List Obj) (outcome : Result (List Obj) (LiteralRefusal ℕ))
        → IsUnderway text.now old outcome (block.entry ∷ []) 1 heap.old labels.old.items
        → Finishes text.now old outcome heap.new result }
{
    let mut stack = BlockStack::new(alloc);
    stack.push(block)?;
    let mut j = 1;
    'part: while let Some(block) = stack.pop() {
        j = read_part(alloc, text, heap, labels, &mut stack, block, j)?;
    }
    Ok(())
}
