//! The open positions of a value, and the requirement of each open position.

ghost use Rattle.std.specs.Prelude.{◌≡◌, ◌≤◌, ◌∷◌, ◌++◌, [], MatchOption, OnOk};
ghost use Rattle.std.specs.Bool.{OnTrue};
ghost use Rattle.check_stream.specs.theory.AskedNeeds.{of_type, values_in};
ghost use Rattle.check_stream.specs.checker.OpenPositions.{open_needs, need_of, waiting_needs};
ghost use Rattle.check_stream.specs.checker.OpenPositions.{positions_needs};

use base_data::model::Memory;
use std::alloc::Global;
use types_spec::types::shape::PolyTag;

/// The open positions of one block, in order.
#[derive(Clone, Copy)]
pub enum BlockPositions<'a> {
    /// One position for each of these types.
    Listed(&'a [usize]),
    /// This many positions, each of which has this type.
    Each(u64, usize),
    /// Two positions: the hash of one of these tags, and the argument of the tag.
    Tagged(&'a [PolyTag<usize>]),
}

/// What a position requires: a value of a type, or the hash of one of these tags.
#[derive(Clone, Copy)]
pub enum Requirement<'a> {
    Type(usize),
    Hash(&'a [PolyTag<usize>]),
}

/// Returns the requirement of the first open position, and the remaining positions. If no position
/// is open, returns `None`.
#[inline(always)]
fn split<'a>(open: BlockPositions<'a>) -> Option<(Requirement<'a>, BlockPositions<'a>)>
    ensures { MatchOption result
        (open_needs open.entry ≡ []) (λ first. open_needs open.entry ≡ need_of first.0
        ∷ open_needs first.1) }
{
    match open {
        BlockPositions::Listed(types) => {
            if types.is_empty() {
                return None;
            }
            Some((
                Requirement::Type(types[0]),
                BlockPositions::Listed(&types[1..]),
            ))
        }
        BlockPositions::Each(count, ty) => {
            if count == 0 {
                return None;
            }
            Some((Requirement::Type(ty), BlockPositions::Each(count - 1, ty)))
        }
        BlockPositions::Tagged(tags) => Some((Requirement::Hash(tags), BlockPositions::Each(0, 0))),
    }
}

/// Returns true if no position is open.
#[inline(always)]
pub fn is_done(open: BlockPositions<'_>) -> bool
    ensures { OnTrue result (open_needs open.entry ≡ []) }
{
    match open {
        BlockPositions::Listed(types) => types.is_empty(),
        BlockPositions::Each(count, _) => count == 0,
        BlockPositions::Tagged(_) => false,
    }
}

/// Returns the number of values that are still to be read for these positions. A hash and the
/// argument of the hash are two values.
pub fn values_of(block: BlockPositions<'_>) -> u64
    ensures { result ≡ values_in (open_needs block.entry) }
{
    match block {
        BlockPositions::Listed(types) => types.len() as u64,
        BlockPositions::Each(count, _) => count,
        BlockPositions::Tagged(_) => 2,
    }
}

/// The open positions of all blocks. `now` contains the open positions of the innermost block.
/// `waiting` is a stack of the open positions of the enclosing blocks.
#[derive(Drop)]
pub struct OpenPositions<'a> {
    pub now: BlockPositions<'a>,
    pub waiting: Vec<BlockPositions<'a>>,
}

impl<'a> OpenPositions<'a> {
    /// Returns the position of the root, which requires the first type.
    pub fn root(alloc: Global) -> OpenPositions<'a>
        ensures { positions_needs result ≡ of_type 0 ∷ [] }
    {
        OpenPositions {
            now: BlockPositions::Each(1, 0),
            waiting: Vec::new(alloc),
        }
    }

    /// Replaces all positions by the position of another value's root, and reuses the memory.
    pub fn restart(&mut self)
        ensures { positions_needs self.new ≡ of_type 0 ∷ [] }
    {
        self.waiting.clear();
        self.now = BlockPositions::Each(1, 0);
    }

    /// Returns true if at most `most` values are still to be read for the open positions. Subtracts
    /// the number of inspected blocks from `left`, and returns false if `left` is too small.
    pub fn are_within(&self, most: u64, left: &mut u64) -> bool
        ensures { OnTrue result (values_in (positions_needs self.entry.now) ≤ most) }
    {
        let blocks = self.waiting.len() as u64;
        if *left < blocks {
            return false;
        }
        *left -= blocks;
        let Some(mut room) = most.checked_sub(values_of(self.now)) else {
            return false;
        };
        'waiting: for block in self.waiting.as_slice() {
            let Some(less) = room.checked_sub(values_of(*block)) else {
                return false;
            };
            room = less;
        }
        true
    }

    /// If the innermost block has open positions, pushes the open positions on the stack.
    #[tactic(auto, using(crate::proofs::checker::CheckerPositionLemmas::waiting_needs_push))]
    #[inline(always)]
    fn keep(&mut self) -> Result<(), Memory>
        ensures { OnOk result (waiting_needs self.new.waiting.items ≡ positions_needs self.old) }
    {
        if is_done(self.now) {
            return Ok(());
        }
        self.waiting.push(self.now)?;
        Ok(())
    }

    /// Adds the positions of an inner block before all others.
    #[inline(always)]
    pub fn open(&mut self, inside: BlockPositions<'a>) -> Result<(), Memory>
        ensures { OnOk result
            (positions_needs self.new ≡ open_needs inside.entry ++ positions_needs self.old) }
    {
        self.keep()?;
        self.now = inside;
        Ok(())
    }
}

/// Returns the open positions of the innermost block that has any.
#[tactic(auto, using(crate::proofs::checker::CheckerPositionLemmas::waiting_needs_push))]
#[inline(always)]
pub fn innermost<'a>(
    now: BlockPositions<'a>,
    waiting: &mut Vec<BlockPositions<'a>>,
) -> BlockPositions<'a>
    ensures { open_needs result ++ waiting_needs waiting.new.items
        ≡ open_needs now.entry ++ waiting_needs waiting.old.items }
{
    if !is_done(now) {
        return now;
    }
    match waiting.pop() {
        Some(block) => block,
        None => now,
    }
}

/// Returns the requirement of the first open position, and the remaining open positions of the
/// position's block.
#[inline(always)]
pub fn first_position<'a>(
    now: BlockPositions<'a>,
    waiting: &mut Vec<BlockPositions<'a>>,
) -> Option<(Requirement<'a>, BlockPositions<'a>)>
    ensures { MatchOption result
        (open_needs now.entry ++ waiting_needs waiting.old.items ≡ [])
        (λ first. open_needs now.entry ++ waiting_needs waiting.old.items
        ≡ need_of first.0 ∷ (open_needs first.1 ++ waiting_needs waiting.new.items)) }
{
    if let Some(first) = split(now) {
        return Some(first);
    }
    first_waiting(waiting)
}

/// Returns the requirement of the first open position on the stack, and the remaining open
/// positions of the position's block. The caller guarantees that the innermost block has no open
/// position.
#[tactic(auto, using(crate::proofs::checker::CheckerPositionLemmas::waiting_needs_push))]
#[inline(always)]
fn first_waiting<'a>(
    waiting: &mut Vec<BlockPositions<'a>>,
) -> Option<(Requirement<'a>, BlockPositions<'a>)>
    ensures { MatchOption result
        (waiting_needs waiting.old.items ≡ [])
        (λ first. waiting_needs waiting.old.items
        ≡ need_of first.0 ∷ (open_needs first.1 ++ waiting_needs waiting.new.items)) }
{
    'waiting: while let Some(block) = waiting.pop() {
        if let Some(first) = split(block) {
            return Some(first);
        }
    }
    None
}
