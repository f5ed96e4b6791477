//! Searches for the only mismatch of a value, token by token up to the end of the value.

ghost use Rattle.std.specs.Prelude.{◌≡◌, ◌<◌, ◌≤◌, ℕ, List, length, IfOk, IsTrue, Ok};
ghost use Rattle.std.specs.Prelude.{slice_index};
ghost use Rattle.std.specs.Bool.{OnTrue};
ghost use Rattle.types_table.specs.type_table.Made.{table_of};
ghost use Rattle.types_spec.specs.types.Table.{Table};
ghost use Rattle.marshal_spec.specs.format.Code.{kind_of};
ghost use Rattle.marshal_spec.specs.format.Token.{Token};
ghost use Rattle.check_stream.specs.mismatch_theory.PassedBut.{Misses, values_at};
ghost use Rattle.marshal_codec.specs.declared.token.summary.Summary.TheVariants as summaries;
ghost use Rattle.check_stream.specs.declared.mismatch_search.way.Expectation.TheVariants as asks;
ghost use Rattle.marshal_codec.specs.token.Summary.{IsSummary, IsFair, summary_fields};
ghost use Rattle.check_stream.specs.mismatch_search.SearchTrail.{IsWay, IsAfterHash, IsSplit};
ghost use Rattle.check_stream.specs.mismatch_search.SearchTrail.{OnHash, left_values};
ghost use Rattle.check_stream.specs.mismatch_search.SearchTrail.{way_positions};
ghost use Rattle.check_stream.specs.mismatch_search.Find.{BeginsSearch, HasRoom, Passes};
ghost use Rattle.check_stream.specs.mismatch_search.Find.{AddsObject, Comes};
ghost use Rattle.check_stream.specs.mismatch_search.Find.{EndsSearch};
ghost use Rattle.check_stream.specs.mismatch_search.Find.{unasked_in, IsFirst, IsSought, Seeks};
ghost use Rattle.check_stream.specs.mismatch_search.Find.{RunsFast};
ghost use Rattle.check_stream.specs.mismatch_search.Find.{RunsFastBy};

use crate::checker::Words;
use crate::checker::leading_token::first_token;
use crate::checker::token_fits::{is_equal, is_wildcard, shape_of, type_at};
use crate::checker::whole::head_of;
use crate::mismatch_search::push::push;
use crate::mismatch_search::reference_targets::Again;
use crate::mismatch_search::second::SecondReads;
use crate::mismatch_search::token_judgement::{TokenJudgement, judge};
use crate::mismatch_search::way::{
    BlockExpectations, Expectation, Link, Way, copy_to, first_type, split_listed,
};
use base_data::model::Memory;
use base_data::model::code::CodeKind;
use base_data::model::header::Head;
use marshal_codec::token::{Summary, TokenStep, decode_kind, fields_of, is_countable, measure_of};
use std::alloc::Global;
use std::mem;
use types_spec::types::shape::PolyTag;
use types_table::leaf_fits::{fits_int, tag_of_hash};
use types_table::type_table::TypeTable;

/// A number that is recorded for an object without a type.
const NO_TYPE: usize = 65535;

/// A mismatch: the links of the path to the mismatch, the expected type, and the summary of the
/// mismatched token.
#[derive(Drop)]
pub struct FoundMismatch {
    pub links: Vec<Link>,
    pub ty: usize,
    pub summary: Summary,
}

/// The state of the search. The state contains the open positions, the types of the objects so far,
/// and the objects that are targets of references. The state also contains what is known about
/// objects with a second type, the remaining words, and the mismatch, if one was found. The last
/// field is spare memory for the links of a mismatch.
#[derive(Drop)]
pub struct Finding<'a> {
    pub way: Way<'a>,
    pub types: Vec<u16>,
    pub again: Again,
    pub seconds: SecondReads,
    pub words: Words,
    pub found: Option<FoundMismatch>,
    pub room: Vec<Link>,
}

/// The result of the fast path for one token.
#[derive(Clone, Copy)]
pub enum Fast {
    /// The token was consumed, and has this length in bytes.
    Took(usize),
    /// The token was not consumed, and the state did not change.
    Kept,
    /// The search cannot decide.
    Inconclusive,
}

/// Returns the positions of a token's fields below a mismatch. Positions below a mismatch have no
/// expected types.
#[inline(always)]
fn unasked<'a>(summary: Summary) -> BlockExpectations<'a>
    ensures fields { (token : Token) → IsSummary summary token → unasked_in result token }
    ensures none { HasRoom summary result }
    ensures many { left_values result ≡ summary_fields summary }
{
    BlockExpectations::Unasked(fields_of(summary))
}

impl<'a> Finding<'a> {
    /// Creates the state before the first token.
    fn new(alloc: Global, head: &Head) -> Finding<'a>
        ensures { BeginsSearch head.now result }
    {
        Finding {
            way: Way::root(alloc),
            types: Vec::new(alloc),
            again: Again::new(alloc),
            seconds: SecondReads::new(alloc),
            words: Words::stated(head),
            found: None,
            room: Vec::new(alloc),
        }
    }

    /// Resets the state to the state before the first token of another value. The memory is kept.
    fn restart(&mut self, head: &Head)
        ensures { BeginsSearch head.now self.new }
    {
        self.way.restart();
        self.types.clear();
        self.again.restart();
        self.seconds.restart();
        self.words = Words::stated(head);
        if let Some(found) = self.found.take() {
            self.room = found.links;
        }
    }

    /// Consumes the token if the token is an integer of the type that the first open position
    /// expects. After the call, the links do not point to the consumed position.
    #[inline(always)]
    fn fill(
        &mut self,
        table: &TypeTable,
        ty: usize,
        others: BlockExpectations<'a>,
        values: u32,
        summary: Summary,
    ) -> bool
        requires is_way { IsWay self.old.way }
        requires first { IsSplit self.old.way.now.left (asks.Type ty) others values }
        ensures passed { IsTrue result → Passes (table_of table.now) self.old summary self.new }
        ensures kept { (IsTrue result → ⊥) → self.new ≡ self.old }
    {
        let Summary::Integer(z) = summary else {
            return false;
        };
        let Some(shape) = shape_of(table, ty) else {
            return false;
        };
        if !fits_int(shape, z) {
            return false;
        }
        self.way.now.next += values;
        self.way.now.left = others;
        true
    }

    /// Consumes the token and returns true if the token is an integer of the type that the first
    /// open position expects. If the token is not consumed, nothing changes and the result is
    /// false.
    #[inline(always)]
    fn pass(&mut self, table: &TypeTable, summary: Summary) -> bool
        requires { IsWay self.old.way }
        ensures passed { IsTrue result → Passes (table_of table.now) self.old summary self.new }
        ensures kept { (IsTrue result → ⊥) → self.new ≡ self.old }
    {
        let Summary::Integer(_) = summary else {
            return false;
        };
        let Some((ty, others, values)) = first_type(self.way.now.left) else {
            return false;
        };
        self.fill(table, ty, others, values, summary)
    }

    /// If the token makes an object, adds the object with this type. Opens the positions of the
    /// token's fields, in which `values` values are pending. If the remaining words or the 32-bit
    /// numbers do not suffice, returns false.
    #[inline(always)]
    fn add(
        &mut self,
        ty: usize,
        summary: Summary,
        left: BlockExpectations<'a>,
        values: u64,
    ) -> Result<bool, Memory>
        requires room { HasRoom summary left }
        requires many { left_values left ≡ values }
        requires fair { IsFair summary }
        ensures { IfOk result
            (λ added. OnTrue added (AddsObject self.old ty summary left.entry self.new)) }
    {
        let Some(measure) = measure_of(summary) else {
            return Ok(true);
        };
        if ty > NO_TYPE {
            return Ok(false);
        }
        if !self.words.spend(measure) {
            return Ok(false);
        }
        // The positions are opened while the position taken last is still the current position.
        let object = self.types.len();
        let opened = self.way.open(object, left, values)?;
        if !opened {
            return Ok(false);
        }
        push(&mut self.types, ty as u16)?;
        Ok(true)
    }

    /// Consumes the token at the first open position, either because the token matches the expected
    /// type or as the mismatch. Some tokens are not consumed:
    ///
    /// - references,
    /// - integers that do not match,
    /// - objects at types whose numbers are not recorded,
    /// - every 64th object, whose offset must be marked. The first object's offset is marked at the
    ///   start.
    ///
    /// If the words do not suffice, or if a mismatch was already found, then the result is
    /// inconclusive.
    #[inline(always)]
    fn settle(
        &mut self,
        alloc: Global,
        table: &'a TypeTable,
        ty: usize,
        others: BlockExpectations<'a>,
        summary: Summary,
        len: usize,
    ) -> Result<Fast, Memory>
        requires is_way { IsWay self.old.way }
        requires first { IsSplit self.old.way.now.left (asks.Type ty) others 1 }
        requires fair { IsFair summary }
        ensures { IfOk result
            (λ fast. RunsFast (table_of table.now) self.old summary len self.new fast) }
    {
        if let Summary::Integer(_) = summary {
            if self.fill(table, ty, others, 1, summary) {
                return Ok(Fast::Took(len));
            }
            return Ok(Fast::Kept);
        }
        let made = self.types.len();
        if ty >= NO_TYPE || made > 0 && made % 64 == 0 {
            return Ok(Fast::Kept);
        }
        match judge(table, ty, summary) {
            TokenJudgement::Fits => {
                self.way.take_type(ty, others);
                if self.add(ty, summary, BlockExpectations::Unasked(0), 0)? {
                    return Ok(Fast::Took(len));
                }
            }
            TokenJudgement::Opens(positions) => {
                self.way.take_type(ty, others);
                if self.add(
                    ty,
                    summary,
                    BlockExpectations::Asked(positions),
                    fields_of(summary),
                )? {
                    return Ok(Fast::Took(len));
                }
            }
            TokenJudgement::Misses => {
                self.way.take_type(ty, others);
                if self.miss(alloc, ty, summary)? {
                    return Ok(Fast::Took(len));
                }
            }
            _ => return Ok(Fast::Kept),
        }
        Ok(Fast::Inconclusive)
    }

    /// Consumes the token of this kind at the start of the bytes, if `settle` consumes the token.
    #[inline(always)]
    fn fast_kind(
        &mut self,
        alloc: Global,
        table: &'a TypeTable,
        ty: usize,
        others: BlockExpectations<'a>,
        kind: CodeKind,
        rest: &[u8],
    ) -> Result<Fast, Memory>
        requires is_way { IsWay self.old.way }
        requires first { IsSplit self.old.way.now.left (asks.Type ty) others 1 }
        requires some { 0 < length rest.now }
        requires kind { kind_of (slice_index rest.now 0) ≡ Ok kind }
        ensures { IfOk result
            (λ fast. RunsFastBy (table_of table.now) rest.now self.old self.new fast) }
    {
        let TokenStep::Token(summary, len) = decode_kind(kind, rest) else {
            return Ok(Fast::Kept);
        };
        if !is_countable(summary) {
            return Ok(Fast::Kept);
        }
        let fast = self.settle(alloc, table, ty, others, summary, len)?;
        Ok(fast)
    }

    /// Does what `fast_kind` does, for the codes of doubles, of header words of four bytes and of
    /// integers.
    #[tactic(auto, unfolding(marshal_spec::specs::format::Code::kind_of))]
    #[inline(always)]
    fn fast_large(
        &mut self,
        alloc: Global,
        table: &'a TypeTable,
        ty: usize,
        others: BlockExpectations<'a>,
        code: u8,
        rest: &[u8],
    ) -> Result<Fast, Memory>
        requires is_way { IsWay self.old.way }
        requires first { IsSplit self.old.way.now.left (asks.Type ty) others 1 }
        requires code { (0 < length rest.now) × (slice_index rest.now 0 ≡ code) }
        ensures { IfOk result
            (λ fast. RunsFastBy (table_of table.now) rest.now self.old self.new fast) }
    {
        match code {
            0x00 => self.fast_kind(alloc, table, ty, others, CodeKind::Int(1), rest),
            0x01 => self.fast_kind(alloc, table, ty, others, CodeKind::Int(2), rest),
            0x02 => self.fast_kind(alloc, table, ty, others, CodeKind::Int(4), rest),
            0x03 => self.fast_kind(alloc, table, ty, others, CodeKind::Int(8), rest),
            0x08 => self.fast_kind(alloc, table, ty, others, CodeKind::Block(4), rest),
            0x0c => self.fast_kind(alloc, table, ty, others, CodeKind::Double(true), rest),
            _ => Ok(Fast::Kept),
        }
    }

    /// Consumes the token at the start of the bytes, whose code is below the codes of small blocks,
    /// if `settle` consumes the token.
    #[tactic(auto, unfolding(marshal_spec::specs::format::Code::kind_of))]
    #[inline(always)]
    fn fast_other(
        &mut self,
        alloc: Global,
        table: &'a TypeTable,
        ty: usize,
        others: BlockExpectations<'a>,
        code: u8,
        rest: &[u8],
    ) -> Result<Fast, Memory>
        requires is_way { IsWay self.old.way }
        requires first { IsSplit self.old.way.now.left (asks.Type ty) others 1 }
        requires code { (0 < length rest.now) × (slice_index rest.now 0 ≡ code) }
        requires small { code < 128 }
        ensures { IfOk result
            (λ fast. RunsFastBy (table_of table.now) rest.now self.old self.new fast) }
    {
        if code >= 0x40 {
            self.fast_kind(
                alloc,
                table,
                ty,
                others,
                CodeKind::SmallInt(code % 64),
                rest,
            )
        } else if code >= 0x20 {
            self.fast_kind(
                alloc,
                table,
                ty,
                others,
                CodeKind::SmallString(code % 32),
                rest,
            )
        } else {
            self.fast_large(alloc, table, ty, others, code, rest)
        }
    }

    /// Consumes the first token of the bytes, if `settle` consumes the token. `run_fast` is the
    /// fast path for common tokens in a block whose field types are listed one by one. Each kind of
    /// token has specialized code.
    #[tactic(auto, unfolding(marshal_spec::specs::format::Code::kind_of))]
    #[inline(always)]
    fn run_fast(&mut self, alloc: Global, table: &'a TypeTable, rest: &[u8]) -> Result<Fast, Memory>
        requires { IsWay self.old.way }
        ensures { IfOk result
            (λ fast. RunsFastBy (table_of table.now) rest.now self.old self.new fast) }
    {
        let Some((ty, others)) = split_listed(self.way.now.left) else {
            return Ok(Fast::Kept);
        };
        if rest.is_empty() {
            return Ok(Fast::Kept);
        }
        let code = rest[0];
        if code >= 0x80 {
            let kind = CodeKind::SmallBlock(code % 16, code / 16 % 8);
            self.fast_kind(alloc, table, ty, others, kind, rest)
        } else {
            self.fast_other(alloc, table, ty, others, code, rest)
        }
    }

    /// Returns true if the type is equal to the first type of the object.
    fn is_first(&self, table: &TypeTable, object: usize, ty: usize) -> bool
        requires { object < length self.now.types.items }
        ensures { OnTrue result
            (IsFirst (table_of table.now) self.now.types.items object ty) }
    {
        let own = type_at(self.types.as_slice(), object);
        if own == NO_TYPE {
            return false;
        }
        is_equal(table, own, ty)
    }

    /// Consumes a reference at a position that expects type `ty`. If the search cannot decide,
    /// returns false.
    #[inline(never)]
    fn back(
        &mut self,
        table: &TypeTable,
        stated: u64,
        prefix: &[u8],
        ty: usize,
        offset: u64,
    ) -> Result<bool, Memory>
        ensures { IfOk result
            (λ came. OnTrue came
            (Comes (table_of table.now) stated prefix.now self.old (asks.Type ty)
            (summaries.Shared offset) self.new)) }
    {
        let made = self.types.len();
        if stated == 0 || offset == 0 || offset > made as u64 {
            return Ok(false);
        }
        if is_wildcard(table, ty) {
            return Ok(true);
        }
        let object = made - offset as usize;
        self.again.mark(object, made)?;
        if self.is_first(table, object, ty) {
            return Ok(true);
        }
        self.seconds.show(table, prefix, object, ty)
    }

    /// Consumes a token at a position without an expected type. If the search cannot decide,
    /// returns false.
    #[inline(always)]
    fn below(&mut self, stated: u64, summary: Summary) -> Result<bool, Memory>
        requires { IsFair summary }
        ensures { IfOk result
            (λ came. OnTrue came
            ((table : Table) (prefix : List ℕ)
            → Comes table stated prefix self.old asks.Nothing summary self.new)) }
    {
        if let Summary::Shared(offset) = summary {
            let made = self.types.len() as u64;
            if stated == 0 || offset == 0 || offset > made {
                return Ok(false);
            }
            return Ok(true);
        }
        self.add(NO_TYPE, summary, unasked(summary), fields_of(summary))
    }

    /// Consumes a token that does not match the expected type, and records the token as the
    /// mismatch. If a mismatch was already found, returns false.
    #[inline(never)]
    fn miss(&mut self, alloc: Global, ty: usize, summary: Summary) -> Result<bool, Memory>
        requires { IsFair summary }
        ensures { IfOk result
            (λ came. OnTrue came
            ((table : Table) (stated : ℕ) (prefix : List ℕ)
            → ((token : Token) → IsSummary summary token → Misses table ty token)
            → Comes table stated prefix self.old (asks.Type ty) summary self.new)) }
    {
        if self.found.is_some() {
            return Ok(false);
        }
        let mut links = mem::replace(&mut self.room, Vec::new(alloc));
        copy_to(&mut links, self.way.links.as_slice())?;
        self.found = Some(FoundMismatch { links, ty, summary });
        self.add(NO_TYPE, summary, unasked(summary), fields_of(summary))
    }

    /// Consumes the hash of a tag (`btype.ml`, `hash_variant`). The position after the hash expects
    /// the argument of the tag.
    fn hash(&mut self, tags: &'a [PolyTag<usize>], summary: Summary) -> bool
        requires { IsAfterHash self.old.way }
        ensures { OnTrue result
            ((table : Table) (stated : ℕ) (prefix : List ℕ)
            → Comes table stated prefix self.old (asks.Hash tags.entry) summary self.new) }
    {
        let Summary::Integer(z) = summary else {
            return false;
        };
        let Some(tag) = tag_of_hash(tags, z) else {
            return false;
        };
        let Some(ty) = tag.arg else {
            return false;
        };
        self.way.argument(ty);
        true
    }

    /// Consumes the token at a position that expects a type. If the search cannot decide, returns
    /// false.
    #[inline(always)]
    fn typed(
        &mut self,
        alloc: Global,
        table: &'a TypeTable,
        stated: u64,
        prefix: &[u8],
        ty: usize,
        summary: Summary,
    ) -> Result<bool, Memory>
        requires { IsFair summary }
        ensures { IfOk result
            (λ came. OnTrue came
            (Comes (table_of table.now) stated prefix.now self.old
            (asks.Type ty) summary self.new)) }
    {
        if ty >= NO_TYPE {
            return Ok(false);
        }
        match judge(table, ty, summary) {
            TokenJudgement::Fits => self.add(ty, summary, BlockExpectations::Unasked(0), 0),
            TokenJudgement::Opens(positions) => {
                self.add(
                    ty,
                    summary,
                    BlockExpectations::Asked(positions),
                    fields_of(summary),
                )
            }
            TokenJudgement::Back(offset) => self.back(table, stated, prefix, ty, offset),
            TokenJudgement::Misses => self.miss(alloc, ty, summary),
            TokenJudgement::Unknown => Ok(false),
        }
    }

    /// Consumes the token at the position taken last. If the search cannot decide, returns false.
    #[inline(always)]
    fn come(
        &mut self,
        alloc: Global,
        table: &'a TypeTable,
        stated: u64,
        prefix: &[u8],
        asked: Expectation<'a>,
        summary: Summary,
    ) -> Result<bool, Memory>
        requires hash { OnHash asked (IsAfterHash self.old.way) }
        requires fair { IsFair summary }
        ensures { IfOk result
            (λ came. OnTrue came
            (Comes (table_of table.now) stated prefix.now self.old asked.entry summary self.new)) }
    {
        match asked {
            Expectation::Type(ty) => match summary {
                // Blocks have a specialized copy of the code.
                Summary::Block(tag, size) => {
                    let block = Summary::Block(tag, size);
                    self.typed(alloc, table, stated, prefix, ty, block)
                }
                _ => self.typed(alloc, table, stated, prefix, ty, summary),
            },
            Expectation::Hash(tags) => Ok(self.hash(tags, summary)),
            Expectation::Nothing => self.below(stated, summary),
        }
    }

    /// Tests the state at the end, when no position is open. Returns true if a mismatch was found,
    /// everything that the header states was read, and no reference leads back to a block on the
    /// mismatch's path.
    fn end(&self, head: &Head, start: usize, at: usize) -> bool
        requires { start ≤ at }
        ensures { OnTrue result
            ((found : FoundMismatch) × EndsSearch head.now start at self.now found) }
    {
        let objects = self.types.len();
        if !self.words.is_spent(head, start, at, objects) {
            return false;
        }
        let Some(found) = &self.found else {
            return false;
        };
        self.again.are_alone(found.links.as_slice())
    }
}

/// A search for the only mismatch of a value whose bytes arrive in chunks. `head` is the header,
/// `start` is the offset in bytes of the first token, and `at` is the offset up to which the bytes
/// were read.
#[derive(Drop)]
pub struct Seeking<'a> {
    pub head: Head,
    pub start: usize,
    pub at: usize,
    pub finding: Finding<'a>,
    /// The number of bytes of the value that have arrived.
    pub seen: usize,
    /// The number of open blocks that may still be counted again. Each byte that arrives increases
    /// the number by one.
    pub left: u64,
}

/// The result of a search step.
#[derive(Clone, Copy)]
pub enum SearchEnd {
    /// The value has this many bytes, and the only mismatch was found. The mismatch is the value's
    /// first fault: all other parts have their types, and no reference leads back to a block on the
    /// path to the mismatch.
    Found(usize),
    /// At the offset that was reached, no complete token begins.
    Truncated,
    /// The search cannot decide.
    Inconclusive,
}

impl<'a> Seeking<'a> {
    /// Creates a search that has read nothing, without allocating memory.
    pub fn new(alloc: Global) -> Seeking<'a> {
        let head = Head::empty();
        Seeking {
            start: 20,
            at: 20,
            finding: Finding::new(alloc, &head),
            seen: 0,
            left: 0,
            head,
        }
    }

    /// Starts a search at the value whose header begins the bytes, and reuses the memory of the
    /// last search. If the header is incomplete or states more than the limit of 64-bit words
    /// allows, returns false.
    pub fn begin(&mut self, bytes: &[u8], limit: u64) -> Result<bool, Memory>
        ensures { IfOk result
            (λ begun. OnTrue begun ((table : Table) → IsSought table limit bytes.now self.new)) }
    {
        let Some(head) = head_of(bytes, limit) else {
            return Ok(false);
        };
        let start = if head.big { 32 } else { 20 };
        self.finding.restart(&head);
        self.finding.seconds.mark(start, 0)?;
        self.start = start;
        self.at = start;
        self.seen = 0;
        self.left = 0;
        self.head = head;
        Ok(true)
    }

    /// Continues the search. `bytes` are all bytes of the value that have arrived.
    pub fn go(
        &mut self,
        alloc: Global,
        table: &'a TypeTable,
        limit: u64,
        bytes: &[u8],
    ) -> Result<SearchEnd, Memory>
        requires sought { IsSought (table_of table.now) limit bytes.now self.old }
        ensures { IfOk result (Seeks (table_of table.now) limit bytes.now self.new) }
    {
        table.holds();
        let more = bytes.len().saturating_sub(self.seen) as u64;
        let more = more.min(self.head.length);
        self.left = self.left.saturating_add(more);
        self.finding.seconds.left = self.finding.seconds.left.saturating_add(more);
        self.seen = bytes.len();
        'tokens: loop {
            if !self.finding.way.ready() {
                if self.finding.end(&self.head, self.start, self.at) {
                    return Ok(SearchEnd::Found(self.at));
                }
                return Ok(SearchEnd::Inconclusive);
            }
            let rest = &bytes[self.at..];
            match self.finding.run_fast(alloc, table, rest)? {
                Fast::Took(len) => {
                    self.at += len;
                    continue;
                }
                Fast::Kept => {}
                Fast::Inconclusive => return Ok(SearchEnd::Inconclusive),
            }
            let TokenStep::Token(first, len) = first_token(rest) else {
                return Ok(SearchEnd::Truncated);
            };
            if !is_countable(first) {
                return Ok(SearchEnd::Inconclusive);
            }
            if self.finding.pass(table, first) {
                self.at += len;
                continue;
            }
            let made = self.finding.types.len();
            self.finding.seconds.mark(self.at, made)?;
            let asked = self.finding.way.take();
            let prefix = &bytes[..self.at];
            let came = self
                .finding
                .come(alloc, table, self.head.objects, prefix, asked, first)?;
            if !came {
                return Ok(SearchEnd::Inconclusive);
            }
            self.at += len;
        }
    }

    /// Returns true if at most `most` values are pending. Subtracts the number of counted blocks
    /// from `left`. If `left` does not suffice, returns false.
    pub fn are_within(&self, most: u64, left: &mut u64) -> bool
        ensures { OnTrue result (values_at (way_positions self.now.finding.way) ≤ most) }
    {
        self.finding.way.are_within(most, left)
    }
}
