//! Reads a literal without parts at a shape. A literal without parts is called a leaf.

ghost use Rattle.std.specs.Prelude.{ℕ, ◌≡◌, length, Bool};
ghost use Rattle.types_lex.specs.declared.lexeme.LexemeKind.TheVariants as kinds;
ghost use Rattle.types_spec.specs.declared.types.names.Names.{Names};
ghost use Rattle.text_literal.specs.literal_grammar.Literal.{Plain, LiteralHead, constant, integer};
ghost use Rattle.text_literal.specs.literal_grammar.Literal.{character};
ghost use Rattle.text_literal.specs.literal_grammar.Literal.{string, double, truth, truth_name};
ghost use Rattle.text_literal.specs.literal_grammar.Literal.{unit};
ghost use Rattle.text_literal.specs.literal_grammar.Literal.{empty_array};
ghost use Rattle.base_data.specs.declared.model.value.Val.TheVariants as vals;
ghost use Rattle.base_data.specs.declared.model.value.Obj.TheVariants as objects;
ghost use Rattle.text_literal.specs.parser.Starts.{start_at, if_in_range, is_in_bits, small, whole};
ghost use Rattle.text_literal.specs.parser.LiteralLeaves.{leaf_in, below_of, lead_of, IsSound};
ghost use Rattle.text_literal.specs.parser.Pending.{parts_of};
ghost use Rattle.text_literal.specs.parser.Standing.{lead_of_plain};

use crate::parser::named::constant_leaf;
use base_data::model::code::Custom;
use base_data::model::list::List;
use base_data::model::value::Val;
use types_lex::lexeme::{Integer, LexemeKind, Suffix, Symbol};
use types_spec::types::names::Names;
use types_spec::types::shape::ShapeOf;

/// The result for a literal without parts: a type mismatch, an integer out of range, an integer, an
/// atom, or the contents of an object.
#[derive(Clone, Copy)]
pub enum Leaf<'a> {
    Mismatch,
    OutOfRange,
    Small(Val),
    Bytes(&'a [u8]),
    Double(u64),
    Custom(Custom),
}

/// Returns the leaf of an OCaml `int`, which has 63 bits.
#[inline(always)]
fn int_leaf(value: i64) -> Leaf<'static>
    ensures sound { IsSound result }
    ensures leaf { leaf_in result ≡ if_in_range (is_in_bits 62 value) (small (vals.Int value)) }
{
    if value < -(1 << 62) || value >= 1 << 62 {
        Leaf::OutOfRange
    } else {
        Leaf::Small(Val::Int(value))
    }
}

/// Returns the leaf of an `int32`.
fn int32_leaf(value: i64) -> Leaf<'static>
    ensures sound { IsSound result }
    ensures leaf { leaf_in result ≡ if_in_range (is_in_bits 31 value) (whole (objects.I32 value)) }
{
    if value < -(1 << 31) || value >= 1 << 31 {
        Leaf::OutOfRange
    } else {
        Leaf::Custom(Custom::I32(value as i32))
    }
}

/// Returns the leaf of an integer literal at a shape.
#[inline(always)]
fn integer_leaf(shape: &ShapeOf<usize>, i: Integer) -> Leaf<'static>
    ensures leaf { (t : ℕ) (names : Names)
        → leaf_in result ≡ start_at t shape.now names (integer i) }
    ensures sound { IsSound result }
{
    match (shape, i.suffix) {
        (ShapeOf::AnyInt, Suffix::Absent) => int_leaf(i.value),
        (ShapeOf::Int32, Suffix::Int32) => int32_leaf(i.value),
        (ShapeOf::Int64, Suffix::Int64) => Leaf::Custom(Custom::I64(i.value)),
        (ShapeOf::Native, Suffix::Native) => Leaf::Custom(Custom::Native(i.value)),
        _ => Leaf::Mismatch,
    }
}

/// Returns the integer `n` if the shape is that of the integers from 0 to `many` - 1, and a
/// mismatch for any other shape.
fn below_leaf(shape: &ShapeOf<usize>, many: u64, n: u8) -> Leaf<'static>
    ensures sound { IsSound result }
    ensures leaf { leaf_in result ≡ below_of shape.now many n }
{
    match shape {
        ShapeOf::Below(limit) if *limit == many => Leaf::Small(Val::Int(i64::from(n))),
        _ => Leaf::Mismatch,
    }
}

/// Returns the leaf of a character literal at a shape.
fn character_leaf(shape: &ShapeOf<usize>, c: u8) -> Leaf<'static>
    ensures leaf { (t : ℕ) (names : Names)
        → leaf_in result ≡ start_at t shape.now names (character c) }
    ensures sound { IsSound result }
{
    below_leaf(shape, 256, c)
}

/// Returns the leaf of `true` or `false` at a shape.
fn truth_leaf(shape: &ShapeOf<usize>, b: bool) -> Leaf<'static>
    ensures leaf { (t : ℕ) (names : Names) → leaf_in result ≡ start_at t shape.now names (truth b) }
    ensures sound { IsSound result }
{
    below_leaf(shape, 2, u8::from(b))
}

/// Returns the leaf of `()` at a shape.
fn unit_leaf(shape: &ShapeOf<usize>) -> Leaf<'static>
    ensures leaf { (t : ℕ) (names : Names) → leaf_in result ≡ start_at t shape.now names unit }
    ensures sound { IsSound result }
{
    below_leaf(shape, 1, 0)
}

/// Returns the leaf of a string literal at a shape.
#[inline(always)]
fn text_leaf<'a>(shape: &ShapeOf<usize>, bytes: &'a List<u8>) -> Leaf<'a>
    ensures leaf { (t : ℕ) (names : Names)
        → leaf_in result ≡ start_at t shape.now names (string bytes.now) }
    ensures sound { IsSound result }
{
    match shape {
        ShapeOf::Bytes(_) => Leaf::Bytes(bytes.as_slice()),
        _ => Leaf::Mismatch,
    }
}

/// Returns the leaf of a double literal at a shape.
#[inline(always)]
fn double_leaf(shape: &ShapeOf<usize>, bits: u64) -> Leaf<'static>
    ensures leaf { (t : ℕ) (names : Names)
        → leaf_in result ≡ start_at t shape.now names (double bits) }
    ensures sound { IsSound result }
{
    match shape {
        ShapeOf::Double => Leaf::Double(bits),
        _ => Leaf::Mismatch,
    }
}

/// Returns the leaf of `[||]` at a shape.
fn empty_leaf(shape: &ShapeOf<usize>) -> Leaf<'static>
    ensures leaf { (t : ℕ) (names : Names)
        → leaf_in result ≡ start_at t shape.now names empty_array }
    ensures sound { IsSound result }
{
    match shape {
        ShapeOf::ArrayOf(_) | ShapeOf::FloatArray => Leaf::Small(Val::Atom(0)),
        ShapeOf::ArrayOfVariable | ShapeOf::ArrayOfAnything(_) => Leaf::Small(Val::Atom(0)),
        _ => Leaf::Mismatch,
    }
}

/// Returns the leaf of a lowercase word (`true`, `false` or `ref`) at a shape.
fn word_leaf(shape: &ShapeOf<usize>, names: &Names, kind: &LexemeKind, word: &[u8]) -> Leaf<'static>
    ensures truth { (t : ℕ) (b : Bool) → word.now ≡ truth_name b
        → leaf_in result ≡ start_at t shape.now names.now (truth b) }
    ensures constant { (t : ℕ) (h : LiteralHead) → kind.now ≡ kinds.Lower word.now
        → kind.now ≡ lead_of h
        → leaf_in result ≡ start_at t shape.now names.now (constant h) }
    ensures sound { IsSound result }
{
    if word == b"ref".as_slice() {
        constant_leaf(shape, names, kind)
    } else {
        truth_leaf(shape, word == b"true".as_slice())
    }
}

/// Returns the leaf of a literal without parts at a shape. The first lexeme determines the literal.
#[inline(always)]
pub fn leaf_of<'a>(shape: &ShapeOf<usize>, names: &Names, kind: &'a LexemeKind) -> Leaf<'a>
    ensures leaf { (t k : ℕ) (p : Plain) → kind.now ≡ lead_of_plain p → length (parts_of k p) ≡ 0
        → leaf_in result ≡ start_at t shape.now names.now p }
    ensures sound { IsSound result }
{
    match kind {
        LexemeKind::Integer(i) => integer_leaf(shape, *i),
        LexemeKind::Character(c) => character_leaf(shape, *c),
        LexemeKind::Text(bytes) => text_leaf(shape, bytes),
        LexemeKind::Double(bits) => double_leaf(shape, *bits),
        LexemeKind::Symbol(Symbol::OpenParen) => unit_leaf(shape),
        LexemeKind::Symbol(Symbol::OpenArray) => empty_leaf(shape),
        LexemeKind::Lower(word) => word_leaf(shape, names, kind, word.as_slice()),
        _ => constant_leaf(shape, names, kind),
    }
}
