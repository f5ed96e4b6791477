//! Reads a name without parts at a shape: a constant constructor, or a polymorphic variant tag
//! without an argument.

ghost use Rattle.std.specs.Prelude.{ℕ, ◌≡◌, ◌<◌, ◌^◌, Some, List, Option, option_map, position};
ghost use Rattle.std.specs.Prelude.{find, IsTrue};
ghost use Rattle.base_data.specs.model.Graph.{IsInteger};
ghost use Rattle.std.specs.Str.{bytes_eq};
ghost use Rattle.types_spec.specs.declared.types.names.TagName.{TagName};
ghost use Rattle.text_literal.specs.literal_grammar.Literal.{LiteralHead, constant};
ghost use Rattle.text_literal.specs.parser.Starts.{start_at, is_in_bits, constructor_name};
ghost use Rattle.text_literal.specs.parser.Starts.{name_of_tag};
ghost use Rattle.text_literal.specs.parser.Starts.{constant_of_name, constant_start, tag_named};
ghost use Rattle.text_literal.specs.parser.Starts.{if_tag};
ghost use Rattle.text_literal.specs.parser.Starts.{bare_tag};
ghost use Rattle.text_literal.specs.parser.LiteralLeaves.{leaf_in, lead_of, IsSound};

use crate::parser::leaf::Leaf;
use base_data::model::list::List;
use base_data::model::value::Val;
use types_lex::lexeme::{LexemeKind, Symbol};
use types_spec::types::names::{Names, TagName};
use types_spec::types::shape::{PolyTag, ShapeOf};
use types_table::leaf_fits::tag_of_hash;

/// Returns the name of the constructor that the first lexeme of a literal names, or `None` if the
/// lexeme names no constructor.
#[inline(always)]
pub(crate) fn name_of_constructor(kind: &LexemeKind) -> Option<&[u8]>
    ensures { (h : LiteralHead) → kind.now ≡ lead_of h
        → option_map (λ name. name.now) result ≡ constructor_name h }
{
    match kind {
        LexemeKind::Upper(name) | LexemeKind::Lower(name) => Some(name.as_slice()),
        LexemeKind::Symbol(Symbol::DoubleColon) => Some(b"::"),
        LexemeKind::Symbol(Symbol::OpenBracket) => Some(b"[]"),
        _ => None,
    }
}

/// Returns the name of the polymorphic variant tag that the first lexeme of a literal names, or
/// `None` if the lexeme names no tag.
pub(crate) fn tag_name(kind: &LexemeKind) -> Option<&[u8]>
    ensures { (h : LiteralHead) → kind.now ≡ lead_of h
        → option_map (λ name. name.now) result ≡ name_of_tag h }
{
    match kind {
        LexemeKind::Tag(name) => Some(name.as_slice()),
        _ => None,
    }
}

/// Returns the index of the name `name` in a list of names, or `None` if the list does not contain
/// the name.
#[inline(always)]
fn index_of(all: &[List<u8>], name: &[u8]) -> Option<usize>
    ensures bounded { (i : ℕ) → result ≡ Some i → i < 2 ^ 62 }
    ensures index { result ≡ position (bytes_eq name.now) all.now }
{
    all.iter().position(|other| name == other.as_slice())
}

/// Returns the index of the constant constructor that the lexeme names.
#[inline(always)]
fn position_of_constant(names: &Names, kind: &LexemeKind) -> Option<usize>
    ensures bounded { (i : ℕ) → result ≡ Some i → i < 2 ^ 62 }
    ensures index { (h : LiteralHead) → kind.now ≡ lead_of h
        → result ≡ constant_of_name names.now h }
{
    match name_of_constructor(kind) {
        Some(name) => index_of(names.constants.as_slice(), name),
        None => None,
    }
}

/// Returns the leaf of the constant constructor with this index.
#[inline(always)]
fn constant_of(constants: u64, position: Option<usize>) -> Leaf<'static>
    requires { (i : ℕ) → position ≡ Some i → i < 2 ^ 62 }
    ensures sound { IsSound result }
    ensures leaf { leaf_in result ≡ constant_start constants position }
{
    match position {
        Some(i) if (i as u64) < constants => Leaf::Small(Val::Int(i as i64)),
        _ => Leaf::Mismatch,
    }
}

/// Returns the entry of the tag with this name, with the hash of the tag.
fn tag_of_name<'a>(tags: &'a [TagName], name: &[u8]) -> Option<&'a TagName>
    ensures { option_map (λ tag. tag.now) result
        ≡ find (λ (tag : TagName). bytes_eq tag.name name.now) tags.now }
{
    tags.iter().find(|tag| tag.name.as_slice() == name)
}

/// Returns the tag that the first lexeme of a literal names.
pub(crate) fn tag_of<'a>(
    tags: &'a [PolyTag<usize>],
    names: &Names,
    kind: &LexemeKind,
) -> Option<&'a PolyTag<usize>>
    ensures { (h : LiteralHead) → kind.now ≡ lead_of h
        → option_map (λ tag. tag.now) result ≡ tag_named tags.now names.now h }
{
    let name = tag_name(kind)?;
    let tag = tag_of_name(names.tags.as_slice(), name)?;
    tag_of_hash(tags, tag.hash)
}

/// Returns the leaf of a tag without an argument.
fn bare_leaf(tag: Option<&PolyTag<usize>>) -> Leaf<'static>
    ensures sound { IsSound result }
    ensures leaf { leaf_in result ≡ if_tag bare_tag (option_map (λ tag. tag.now) tag.entry) }
{
    match tag {
        Some(tag) => match tag.arg {
            None if is_integer(tag.hash) => Leaf::Small(Val::Int(tag.hash)),
            _ => Leaf::Mismatch,
        },
        None => Leaf::Mismatch,
    }
}

/// Returns true if the number fits into 63 bits.
pub(crate) fn is_integer(z: i64) -> bool
    ensures bits { result ≡ is_in_bits 62 z }
    ensures integer { IsTrue result → IsInteger z }
{
    z >= -(1 << 62) && z < 1 << 62
}

/// Returns the leaf of a name without parts at a shape. The first lexeme determines the name.
#[inline(always)]
pub fn constant_leaf(shape: &ShapeOf<usize>, names: &Names, kind: &LexemeKind) -> Leaf<'static>
    ensures sound { IsSound result }
    ensures leaf { (t : ℕ) (h : LiteralHead) → kind.now ≡ lead_of h
        → leaf_in result ≡ start_at t shape.now names.now (constant h) }
{
    match shape {
        ShapeOf::Sum(constants, _) => constant_of(*constants, position_of_constant(names, kind)),
        ShapeOf::Poly(tags) => bare_leaf(tag_of(tags.as_slice(), names, kind)),
        _ => Leaf::Mismatch,
    }
}
