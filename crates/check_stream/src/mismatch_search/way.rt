//! The open positions of a value, and the path to each open position.

ghost use Rattle.std.specs.Prelude.{◌≡◌, ◌<◌, ◌≤◌, ◌∷◌, [], MatchBool, MatchOption, IfOk, OnOk};
ghost use Rattle.std.specs.Prelude.{IfSome};
ghost use Rattle.std.specs.Bool.{OnTrue};
ghost use Rattle.check_stream.specs.mismatch_theory.PassedBut.{field_after, values_at};
ghost use Rattle.check_stream.specs.declared.mismatch_search.way.Expectation.TheVariants as asks;
ghost use Rattle.check_stream.specs.declared.mismatch_search.way.BlockExpectations.TheVariants as lefts;
ghost use Rattle.check_stream.specs.mismatch_search.SearchTrail.{position_of, left_values};
ghost use Rattle.check_stream.specs.mismatch_search.SearchTrail.{root_position};
ghost use Rattle.check_stream.specs.mismatch_search.SearchTrail.{way_positions, trail_in};
ghost use Rattle.check_stream.specs.mismatch_search.SearchTrail.{IsWay, IsSplit, PointsTo};
ghost use Rattle.check_stream.specs.mismatch_search.SearchTrail.{IsAfterHash, OpensAt};
ghost use Rattle.check_stream.specs.mismatch_search.SearchTrail.{KeepsWaiting};
ghost use Rattle.check_stream.specs.mismatch_search.SearchTrail.{OnHash};

use crate::checker::{BlockPositions, values_of};
use crate::mismatch_search::push::push;
use base_data::model::Memory;
use std::alloc::Global;
use types_spec::types::shape::PolyTag;

/// What a position expects: a type or the hash of a tag. A position below a mismatch expects
/// nothing.
#[derive(Clone, Copy)]
pub enum Expectation<'a> {
    Type(usize),
    Hash(&'a [PolyTag<usize>]),
    Nothing,
}

/// What the open positions of a block expect.
#[derive(Clone, Copy)]
pub enum BlockExpectations<'a> {
    Asked(BlockPositions<'a>),
    /// This many positions expect nothing, because the block is the mismatch or is below the
    /// mismatch.
    Unasked(u64),
}

/// An open block and the index of its current field.
#[derive(Clone, Copy)]
pub struct Link {
    pub object: u32,
    pub field: u32,
}

/// The open positions of one block. `depth` is the number of links that lead to the positions, and
/// the last of these links belongs to the block. `next` is the index of the first open position,
/// and `left` is what the positions expect.
#[derive(Clone, Copy)]
pub struct Wait<'a> {
    pub depth: usize,
    pub next: u32,
    pub left: BlockExpectations<'a>,
}

/// The open positions of all blocks. `now` contains the positions of the innermost block, and
/// `waiting` the positions of the enclosing blocks. `links` leads from the root to the position
/// taken last. The link of a block without open positions stays as long as a block inside has an
/// open position.
#[derive(Drop)]
pub struct Way<'a> {
    pub now: Wait<'a>,
    pub waiting: Vec<Wait<'a>>,
    pub links: Vec<Link>,
}

/// Returns what the first remaining position expects, the positions after the first, and the number
/// of values of the first position.
fn split<'a>(left: BlockExpectations<'a>) -> Option<(Expectation<'a>, BlockExpectations<'a>, u32)>
    ensures { MatchOption result
        (left_values left.entry ≡ 0)
        (λ first. IsSplit left.entry first.0 first.1 first.2) }
{
    match left {
        BlockExpectations::Asked(positions) => split_asked(positions),
        BlockExpectations::Unasked(count) => {
            if count == 0 {
                return None;
            }
            Some((
                Expectation::Nothing,
                BlockExpectations::Unasked(count - 1),
                1,
            ))
        }
    }
}

/// Splits positions with expected types. Returns what the first position expects, the positions
/// after the first, and the number of values of the first position.
fn split_asked<'a>(
    positions: BlockPositions<'a>,
) -> Option<(Expectation<'a>, BlockExpectations<'a>, u32)>
    ensures { MatchOption result
        (left_values (lefts.Asked positions.entry) ≡ 0)
        (λ first. IsSplit (lefts.Asked positions.entry) first.0 first.1 first.2) }
{
    match positions {
        BlockPositions::Listed(types) => {
            if types.is_empty() {
                return None;
            }
            let others = BlockExpectations::Asked(BlockPositions::Listed(&types[1..]));
            Some((Expectation::Type(types[0]), others, 1))
        }
        BlockPositions::Each(count, ty) => {
            if count == 0 {
                return None;
            }
            let others = BlockExpectations::Asked(BlockPositions::Each(count - 1, ty));
            Some((Expectation::Type(ty), others, 1))
        }
        BlockPositions::Tagged(tags) => Some((
            Expectation::Hash(tags),
            BlockExpectations::Asked(BlockPositions::Each(0, 0)),
            2,
        )),
    }
}

/// If the first remaining position expects a type, returns the expected type, the positions after
/// the first, and the number of values of the first position.
#[inline(always)]
pub fn first_type<'a>(left: BlockExpectations<'a>) -> Option<(usize, BlockExpectations<'a>, u32)>
    ensures { IfSome result (λ first. IsSplit left.entry (asks.Type first.0) first.1 first.2) }
{
    match split(left) {
        Some((Expectation::Type(ty), others, values)) => Some((ty, others, values)),
        _ => None,
    }
}

/// If the types of the remaining positions are listed one by one, returns the first type and the
/// positions after the first.
#[inline(always)]
pub fn split_listed<'a>(left: BlockExpectations<'a>) -> Option<(usize, BlockExpectations<'a>)>
    ensures { IfSome result (λ first. IsSplit left.entry (asks.Type first.0) first.1 1) }
{
    let BlockExpectations::Asked(BlockPositions::Listed(types)) = left else {
        return None;
    };
    if types.is_empty() {
        return None;
    }
    Some((
        types[0],
        BlockExpectations::Asked(BlockPositions::Listed(&types[1..])),
    ))
}

/// Returns true if values are pending in the remaining positions. The frequent case of listed types
/// is tested first.
#[tactic(auto, using(crate::proofs::theory::BlockLemmas::values_of_types))]
#[inline(always)]
fn is_open(left: BlockExpectations<'_>) -> bool
    ensures { MatchBool result (0 < left_values left.entry) (left_values left.entry ≡ 0) }
{
    if let BlockExpectations::Asked(BlockPositions::Listed(types)) = left {
        if types.is_empty() {
            return false;
        }
        return true;
    }
    values_left(left) > 0
}

/// Returns the number of pending values in the remaining positions.
pub fn values_left(left: BlockExpectations<'_>) -> u64
    ensures { result ≡ left_values left.entry }
{
    match left {
        BlockExpectations::Asked(positions) => values_of(positions),
        BlockExpectations::Unasked(count) => count,
    }
}

/// Replaces the contents of `copy` by the links. Fails with `Memory` if memory runs out.
pub fn copy_to(copy: &mut Vec<Link>, links: &[Link]) -> Result<(), Memory>
    ensures { OnOk result (copy.new.items ≡ links.now) }
{
    copy.clear();
    'links: for link in links {
        push(copy, *link)?;
    }
    Ok(())
}

impl<'a> Way<'a> {
    /// Creates the position of the root, which expects type 0. No link leads to the root.
    pub fn root(alloc: Global) -> Way<'a>
        ensures is_way { IsWay result }
        ensures positions { way_positions result ≡ root_position ∷ [] }
    {
        Way {
            now: Wait {
                depth: 0,
                next: 0,
                left: BlockExpectations::Asked(BlockPositions::Listed(&[0])),
            },
            waiting: Vec::new(alloc),
            links: Vec::new(alloc),
        }
    }

    /// Makes the links lead to field `field` of the innermost block.
    #[inline(always)]
    fn point(&mut self, field: u32)
        requires { IsWay self.old }
        ensures { PointsTo self.old field self.new }
    {
        let depth = self.now.depth;
        self.links.truncate(depth);
        if depth == 0 {
            return;
        }
        self.links[depth - 1].field = field;
    }

    /// Resets the way to the position of another value's root. The memory is kept.
    pub fn restart(&mut self)
        ensures is_way { IsWay self.new }
        ensures positions { way_positions self.new ≡ root_position ∷ [] }
    {
        self.now = Wait {
            depth: 0,
            next: 0,
            left: BlockExpectations::Asked(BlockPositions::Listed(&[0])),
        };
        self.waiting.clear();
        self.links.clear();
    }

    /// Discards innermost blocks without open positions. Returns true if a position is open.
    #[inline(always)]
    pub fn ready(&mut self) -> bool
        requires { IsWay self.old }
        ensures is_way { IsWay self.new }
        ensures same { way_positions self.new ≡ way_positions self.old }
        ensures ready { MatchBool result
            (0 < left_values self.new.now.left)
            (way_positions self.new ≡ []) }
    {
        'waiting: loop {
            if is_open(self.now.left) {
                return true;
            }
            match self.waiting.pop() {
                Some(block) => self.now = block,
                None => return false,
            }
        }
    }

    /// Takes the first open position and returns what the position expects. After the call, the
    /// links lead to the taken position.
    #[inline(always)]
    pub fn take(&mut self) -> Expectation<'a>
        requires is_way { IsWay self.old }
        requires some { 0 < left_values self.old.now.left }
        ensures is_way { IsWay self.new }
        ensures first { way_positions self.old
            ≡ position_of result (trail_in self.new) ∷ way_positions self.new }
        ensures hash { OnHash result (IsAfterHash self.new) }
    {
        let Some((asked, others, values)) = split(self.now.left) else {
            unreachable!()
        };
        let next = self.now.next;
        self.point(next);
        self.now = Wait {
            depth: self.now.depth,
            next: next + values,
            left: others,
        };
        asked
    }

    /// Takes the first open position, which expects the type. After the call, the links lead to the
    /// taken position.
    #[inline(always)]
    pub fn take_type(&mut self, ty: usize, others: BlockExpectations<'a>)
        requires is_way { IsWay self.old }
        requires first { IsSplit self.old.now.left (asks.Type ty) others 1 }
        ensures is_way { IsWay self.new }
        ensures first { way_positions self.old
            ≡ position_of (asks.Type ty) (trail_in self.new) ∷ way_positions self.new }
    {
        let next = self.now.next;
        self.point(next);
        self.now.next = next + 1;
        self.now.left = others;
    }

    /// Returns true if at most `most` values are pending in the open positions. Subtracts the
    /// number of counted blocks from `left`. If `left` does not suffice, returns false.
    pub fn are_within(&self, most: u64, left: &mut u64) -> bool
        ensures { OnTrue result (values_at (way_positions self.entry.now) ≤ most) }
    {
        let blocks = self.waiting.len() as u64;
        if *left < blocks {
            return false;
        }
        *left -= blocks;
        let Some(mut room) = most.checked_sub(values_left(self.now.left)) else {
            return false;
        };
        'waiting: for block in self.waiting.as_slice() {
            let Some(less) = room.checked_sub(values_left(block.left)) else {
                return false;
            };
            room = less;
        }
        true
    }

    /// If the innermost block has open positions, moves the open positions of the innermost block
    /// to `waiting`.
    #[inline(always)]
    fn keep(&mut self) -> Result<(), Memory>
        ensures { OnOk result (IsWay self.old → KeepsWaiting self.old self.new) }
    {
        let left = values_left(self.now.left);
        if left == 0 {
            return Ok(());
        }
        if self.waiting.len() < self.waiting.capacity() {
            self.waiting.push_reserved(self.now);
            return Ok(());
        }
        self.keep_more()
    }

    /// Moves the open positions of the innermost block to `waiting` if the capacity does not
    /// suffice.
    #[inline(never)]
    fn keep_more(&mut self) -> Result<(), Memory>
        ensures { OnOk result (IsWay self.old → KeepsWaiting self.old self.new) }
    {
        self.waiting.push(self.now)?;
        Ok(())
    }

    /// Adds the object with this number at the position taken last. Opens the positions of the
    /// object, in which `values` values are pending, before all others. If the numbers do not fit
    /// in 32 bits, returns false.
    #[inline(always)]
    pub fn open(
        &mut self,
        object: usize,
        left: BlockExpectations<'a>,
        values: u64,
    ) -> Result<bool, Memory>
        requires { left_values left ≡ values }
        ensures { IfOk result
            (λ opened. OnTrue opened
            (IsWay self.old → IsWay self.new × OpensAt self.old object left.entry self.new)) }
    {
        if values == 0 {
            return Ok(true);
        }
        if object >= 1 << 32 || values >= 1 << 32 {
            return Ok(false);
        }
        self.keep()?;
        let link = Link {
            object: object as u32,
            field: 0,
        };
        push(&mut self.links, link)?;
        self.now = Wait {
            depth: self.links.len(),
            next: 0,
            left,
        };
        Ok(true)
    }

    /// Opens the position of the argument of a tag before all others. The position is the field
    /// after the hash, and the hash was taken last.
    pub fn argument(&mut self, ty: usize)
        requires { IsAfterHash self.old }
        ensures is_way { IsWay self.old → IsWay self.new }
        ensures argument { way_positions self.new
            ≡ position_of (asks.Type ty) (field_after (trail_in self.old))
            ∷ way_positions self.old }
    {
        self.now.next -= 1;
        self.now.left = BlockExpectations::Asked(BlockPositions::Each(1, ty));
    }
}
