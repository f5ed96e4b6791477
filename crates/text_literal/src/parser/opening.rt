//! Reads the beginning of a literal with parts at a shape, before the parts are read. The result is
//! a block or a type mismatch.

ghost use Rattle.std.specs.Prelude.{ℕ, ◌≡◌, ◌≢◌, suc, List, [], ◌∷◌, ◌++◌, map, Option, Some, None};
ghost use Rattle.std.specs.Prelude.{option_map, position};
ghost use Rattle.types_spec.specs.declared.types.names.Names.{Names};
ghost use Rattle.types_spec.specs.declared.types.shape.Constr.{Constr};
ghost use Rattle.types_spec.specs.declared.types.shape.ShapeOf.TheVariants as shapes;
ghost use Rattle.text_literal.specs.literal_grammar.Literal.{LiteralHead, Literal, Parts};
ghost use Rattle.text_literal.specs.literal_grammar.Literal.{FieldRows, applied, fields};
ghost use Rattle.text_literal.specs.literal_grammar.Literal.{tuple, array};
ghost use Rattle.text_literal.specs.literal_grammar.LiteralNodes.{count, rows_count};
ghost use Rattle.text_literal.specs.parser.Starts.{start_at, is_constr, names_of_rows, tag_of_name};
ghost use Rattle.text_literal.specs.parser.Starts.{carrying_start, if_tag, carrying_tag};
ghost use Rattle.text_literal.specs.parser.Starts as starts;
ghost use Rattle.text_literal.specs.parser.LiteralLeaves.{lead_of};
ghost use Rattle.types_parse.specs.grammar.Grammar.{Name};
ghost use Rattle.text_literal.specs.parser.Openings.{opening_in, IsSound, IsNotFlat};

use crate::parser::name_lists::same_names;
use crate::parser::named::{is_integer, name_of_constructor, tag_of};
use base_data::model::list::List;
use types_lex::lexeme::LexemeKind;
use types_spec::types::names::{ConstrNames, Names};
use types_spec::types::shape::{Constr, PolyTag, ShapeOf};

/// The types of a block's parts: one type for each part, or one type for all parts.
#[derive(Clone, Copy)]
pub enum PartTypes<'a> {
    Listed(&'a [usize]),
    Each(usize),
}

/// The result for a literal with parts: a type mismatch, or a block. A block has its tag byte and
/// the types of its parts. The block of a polymorphic variant also has the hash before the parts.
#[derive(Clone, Copy)]
pub enum Opening<'a> {
    Mismatch,
    Block(u8, Option<i64>, PartTypes<'a>),
}

/// Returns true if there are no field names.
#[inline(always)]
fn is_unnamed(fields: &[List<u8>]) -> bool
    ensures { result ≡ starts.same_names fields.now [] }
{
    fields.is_empty()
}

/// Returns true if the constructor has the name `name` and no inline record.
#[inline(always)]
fn is_plain(constr: &ConstrNames, name: &[u8]) -> bool
    ensures { result ≡ is_constr name.now [] constr.now }
{
    constr.name.as_slice() == name && is_unnamed(constr.fields.as_slice())
}

/// Returns the index of the constructor with the name `name` and no inline record.
#[inline(always)]
fn index_of(all: &[ConstrNames], name: &[u8]) -> Option<usize>
    ensures { result ≡ position (is_constr name.now []) all.now }
{
    all.iter().position(|constr| is_plain(constr, name))
}

/// Returns the tag of the constructor that the first lexeme of a literal names, if the constructor
/// has no inline record.
#[inline(always)]
fn plain_tag(names: &Names, kind: &LexemeKind) -> Option<usize>
    ensures { (h : LiteralHead) → kind.now ≡ lead_of h → result ≡ tag_of_name names.now [] h }
{
    match name_of_constructor(kind) {
        Some(name) => index_of(names.constructors.as_slice(), name),
        None => None,
    }
}

/// Returns the block of the constructor with this tag, if the constructor has `parts` fields.
#[inline(always)]
fn carrying<'a>(blocks: &'a [Constr<usize>], parts: usize, tag: Option<usize>) -> Opening<'a>
    ensures sound { IsSound result }
    ensures opening { (t : ℕ) → opening_in t result ≡ carrying_start t blocks.now parts tag }
{
    match tag {
        Some(tag) if tag < 244 && tag < blocks.len() && blocks[tag].fields.len() == parts => {
            Opening::Block(
                tag as u8,
                None,
                PartTypes::Listed(blocks[tag].fields.as_slice()),
            )
        }
        _ => Opening::Mismatch,
    }
}

/// Returns the block of a polymorphic variant tag with an argument.
fn carrying_of<'a>(tag: Option<&'a PolyTag<usize>>) -> Opening<'a>
    ensures sound { IsSound result }
    ensures opening { (t : ℕ)
        → opening_in t result ≡ if_tag carrying_tag (option_map (λ tag. tag.now) tag.entry) }
{
    match tag {
        Some(tag) => match tag.arg {
            Some(argument) if is_integer(tag.hash) => {
                Opening::Block(0, Some(tag.hash), PartTypes::Each(argument))
            }
            _ => Opening::Mismatch,
        },
        None => Opening::Mismatch,
    }
}

/// Returns the block of `parts` parts in parentheses without a name (a tuple).
pub fn tuple_opening<'a>(shape: &'a ShapeOf<usize>, names: &Names, parts: usize) -> Opening<'a>
    ensures sound { IsSound result }
    ensures opening { (t : ℕ) (ps : Parts) (u v : Literal) → parts ≡ suc (suc (count ps))
        → opening_in t result ≡ start_at t shape.now names.now (tuple ps u v) }
{
    match shape {
        ShapeOf::Product(_, types) if is_unnamed(names.fields.as_slice()) && types.len() == parts =>
            { Opening::Block(0, None, PartTypes::Listed(types.as_slice())) }
        _ => Opening::Mismatch,
    }
}

/// Returns the block of an array literal, except for an array of doubles.
pub fn array_opening(shape: &ShapeOf<usize>) -> Opening<'static>
    requires { shape.now ≢ shapes.FloatArray }
    ensures sound { IsSound result }
    ensures opening { (t : ℕ) (names : Names) (ps : Parts) (v : Literal)
        → opening_in t result ≡ start_at t shape.now names (array ps v) }
{
    match shape {
        ShapeOf::ArrayOf(part) | ShapeOf::ArrayOfAnything(part) => {
            Opening::Block(0, None, PartTypes::Each(*part))
        }
        _ => Opening::Mismatch,
    }
}

/// Returns the block of a name with `parts` parts in parentheses.
#[inline(always)]
pub fn applied_opening<'a>(
    shape: &'a ShapeOf<usize>,
    names: &Names,
    kind: &LexemeKind,
    parts: usize,
) -> Opening<'a>
    ensures sound { IsSound result }
    ensures opening { (t : ℕ) (h : LiteralHead) (ps : Parts) (v : Literal) → kind.now ≡ lead_of h
        → parts ≡ suc (count ps)
        → opening_in t result ≡ start_at t shape.now names.now (applied h ps v) }
{
    match shape {
        ShapeOf::Sum(_, blocks) => carrying(blocks.as_slice(), parts, plain_tag(names, kind)),
        ShapeOf::Poly(tags) if parts == 1 => carrying_of(tag_of(tags.as_slice(), names, kind)),
        _ => Opening::Mismatch,
    }
}

/// Returns true if the constructor has the name `name` and an inline record with exactly the field
/// names `wanted`.
fn is_inline(constr: &ConstrNames, name: &[u8], wanted: &[&[u8]]) -> bool
    ensures { result ≡ is_constr name.now (map (λ name. name.now) wanted.now) constr.now }
{
    constr.name.as_slice() == name && same_names(constr.fields.as_slice(), wanted)
}

/// Returns the index of the constructor with the name `name` and an inline record with exactly the
/// field names `wanted`.
fn inline_position(all: &[ConstrNames], name: &[u8], wanted: &[&[u8]]) -> Option<usize>
    ensures { result ≡ position (is_constr name.now (map (λ name. name.now) wanted.now)) all.now }
{
    all.iter()
        .position(|constr| is_inline(constr, name, wanted))
}

/// Returns the tag of the constructor that the lexeme names, if the constructor has an inline
/// record with the field names `wanted`.
fn inline_tag(names: &Names, kind: &LexemeKind, wanted: &[&[u8]]) -> Option<usize>
    ensures { (h : LiteralHead) → kind.now ≡ lead_of h
        → result ≡ tag_of_name names.now (map (λ name. name.now) wanted.now) h }
{
    match name_of_constructor(kind) {
        Some(name) => inline_position(names.constructors.as_slice(), name, wanted),
        None => None,
    }
}

/// Returns the block of a constructor name with `parts` fields in braces, given the names of the
/// fields.
pub fn inline_opening<'a>(
    shape: &'a ShapeOf<usize>,
    names: &Names,
    kind: &LexemeKind,
    wanted: &[&[u8]],
    parts: usize,
) -> Opening<'a>
    ensures sound { IsSound result }
    ensures opening { (t : ℕ) (h : LiteralHead) (rs : FieldRows) (x : Name) (v : Literal)
        → kind.now ≡ lead_of h → parts ≡ suc (rows_count rs)
        → map (λ name. name.now) wanted.now ≡ names_of_rows rs ++ x ∷ []
        → opening_in t result ≡ start_at t shape.now names.now (fields (Some h) rs x v) }
{
    match shape {
        ShapeOf::Sum(_, blocks) => carrying(
            blocks.as_slice(),
            parts,
            inline_tag(names, kind, wanted),
        ),
        _ => Opening::Mismatch,
    }
}

/// Returns the block of `parts` fields in braces without a constructor name, given the names of the
/// fields. The function does not handle flat float records.
pub fn record_opening<'a>(
    shape: &'a ShapeOf<usize>,
    names: &Names,
    wanted: &[&[u8]],
    parts: usize,
) -> Opening<'a>
    requires { IsNotFlat shape.now }
    ensures sound { IsSound result }
    ensures opening { (t : ℕ) (rs : FieldRows) (x : Name) (v : Literal)
        → parts ≡ suc (rows_count rs)
        → map (λ name. name.now) wanted.now ≡ names_of_rows rs ++ x ∷ []
        → opening_in t result ≡ start_at t shape.now names.now (fields None rs x v) }
{
    match shape {
        ShapeOf::Product(_, types)
            if same_names(names.fields.as_slice(), wanted) && types.len() == parts => {
            Opening::Block(0, None, PartTypes::Listed(types.as_slice()))
        }
        _ => Opening::Mismatch,
    }
}
