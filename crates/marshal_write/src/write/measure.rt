//! Computes the header of a value.

ghost use Rattle.std.specs.Prelude.{◌≡◌, ◌<◌, length, IfOk, OnOk};
ghost use Rattle.marshal_spec.specs.format.Isomorphism.{IsTreeOf};
ghost use Rattle.marshal_spec.specs.format.Tree.{Tree, tokens};
ghost use Rattle.marshal_spec.specs.format.Token.{leaf};
ghost use Rattle.marshal_spec.specs.format.Canonical.{canonical_head};
ghost use Rattle.marshal_codec.specs.headers.Counting.{IsCountable};
ghost use Rattle.base_data.specs.declared.model.value.Val.TheVariants as vals;
ghost use Rattle.marshal_heap.specs.heap.Heap.{IsHeap, object_at, word_of};
ghost use Rattle.marshal_write.specs.write.WriteStep.{token_in, IsHeld};
ghost use Rattle.marshal_write.specs.write.TokenSums.{token_totals, object_totals, plus};
ghost use Rattle.marshal_write.specs.write.TokenSums.{head_of_totals};
ghost use Rattle.marshal_write.specs.write.TokenSums.{measure_of_custom, FitTotals};
ghost use Rattle.marshal_write.specs.write.WriteWalk.{IsWalk};

use crate::write::write_walk::{WriteStep, WriteWalk, kind_at};
use base_data::model::Memory;
use base_data::model::code::Custom;
use marshal_codec::codes::{
    encode_block, encode_double_array_len, encode_int, encode_shared, encode_string_len,
};
use marshal_codec::headers::{Head, Measure, words_of};
use marshal_heap::heap::{Heap, Kind};

/// Totals for tokens: the number of bytes, the number of objects that the tokens create, and the
/// objects' sizes in 32-bit and 64-bit words.
#[derive(Clone, Copy)]
pub struct WriteTotals {
    length: u64,
    objects: u64,
    w32: u64,
    w64: u64,
}

impl WriteTotals {
    // Returns the totals of a token that creates no object.
    #[inline(always)]
    fn of_bytes(length: usize) -> WriteTotals
        ensures { result ≡ record { length = length; objects = 0; w32 = 0; w64 = 0 } }
    {
        WriteTotals {
            length: length as u64,
            objects: 0,
            w32: 0,
            w64: 0,
        }
    }

    // Returns the totals of a token that creates an object.
    #[inline(always)]
    fn of_object(length: u64, measure: Measure) -> WriteTotals
        requires { IsCountable measure }
        ensures { result ≡ object_totals length measure }
    {
        let (w32, w64) = words_of(measure);
        WriteTotals {
            length,
            objects: 1,
            w32,
            w64,
        }
    }

    #[inline(always)]
    fn add(&mut self, other: WriteTotals)
        requires { FitTotals (plus self.old other) }
        ensures { self.new ≡ plus self.old other }
    {
        self.length += other.length;
        self.objects += other.objects;
        self.w32 += other.w32;
        self.w64 += other.w64;
    }

    // Returns the header of a value with these totals.
    fn head(self) -> Head
        ensures { result ≡ head_of_totals self }
    {
        Head {
            big: self.length >= 1 << 32 || self.w32 >= 1 << 32 || self.w64 >= 1 << 32,
            length: self.length,
            objects: self.objects,
            w32: self.w32,
            w64: self.w64,
        }
    }
}

/// Returns the header of the value of a walk that is before its first token.
pub fn measure<'a>(heap: &'a Heap, walk: &mut WriteWalk<'a>) -> Result<Head, Memory>
    requires walk { IsWalk heap.now walk.old }
    requires first { walk.old.given ≡ 0 }
    ensures walk { OnOk result (IsWalk heap.now walk.new) }
    ensures root { OnOk result (walk.new.root ≡ walk.old.root) }
    ensures head { (tree : Tree) → IsTreeOf heap.now walk.old.root tree
        → IfOk result (λ head. head ≡ canonical_head (tokens tree)) }
    ensures end { (tree : Tree) → IsTreeOf heap.now walk.old.root tree
        → OnOk result (walk.new.given ≡ length (tokens tree)) }
{
    let mut totals = WriteTotals::of_bytes(0);
    'tokens: while let Some(step) = walk.next(heap)? {
        totals.add(step_totals(heap, step));
    }
    Ok(totals.head())
}

// Returns the totals of one token.
#[inline(always)]
fn step_totals(heap: &Heap, step: WriteStep) -> WriteTotals
    requires heap { IsHeap heap.now }
    requires held { IsHeld heap.now step }
    ensures { result ≡ token_totals (token_in heap.now step) }
{
    match step {
        WriteStep::Integer(z) => WriteTotals::of_bytes(encode_int(z).1),
        WriteStep::Atom(tag) => WriteTotals::of_bytes(encode_block(tag, 0).1),
        WriteStep::Shared(offset) => WriteTotals::of_bytes(encode_shared(offset).1),
        WriteStep::Block(tag, size) => {
            WriteTotals::of_object(encode_block(tag, size).1 as u64, Measure::Block(size))
        }
        WriteStep::Leaf(k, word) => leaf_totals(heap, k, word),
    }
}

#[inline(always)]
fn leaf_totals(heap: &Heap, k: u64, word: u64) -> WriteTotals
    requires heap { IsHeap heap.now }
    requires inside { k < length heap.now }
    requires word { word ≡ word_of heap.now (vals.Ref k) }
    ensures { result ≡ token_totals (leaf (object_at heap.now k)) }
{
    match kind_at(heap, k, word) {
        Kind::Block(..) => WriteTotals::of_bytes(0),
        Kind::Bytes(n) => WriteTotals::of_object(
            encode_string_len(n).1 as u64 + n,
            Measure::Bytes(n),
        ),
        Kind::Double => WriteTotals::of_object(9, Measure::Double),
        Kind::Doubles(n) => {
            let prefix = encode_double_array_len(n).1 as u64;
            WriteTotals::of_object(prefix + 8 * n, Measure::Doubles(n))
        }
        Kind::Custom(c) => {
            WriteTotals::of_object(
                marshal_codec::customs::encode(c).1 as u64,
                custom_measure(c),
            )
        }
    }
}

fn custom_measure(c: Custom) -> Measure
    ensures { result ≡ measure_of_custom c }
{
    match c {
        Custom::I32(_) => Measure::Custom(4, 4),
        Custom::I64(_) => Measure::Custom(8, 8),
        Custom::Native(_) => Measure::Custom(4, 8),
    }
}
