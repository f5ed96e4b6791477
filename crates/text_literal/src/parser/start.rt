//! Reads the beginning of a literal at a type, before the literal's parts are read.

ghost use Rattle.std.specs.Prelude.{ℕ, ◌≡◌, ◌<◌, ◌++◌, ◌∷◌, [], Some, None, Option, length, map};
ghost use Rattle.std.specs.Prelude.{suc, option_map, slice_get, IfOk, ◌&&◌, ◌==◌, ◌+◌};
ghost use Rattle.types_spec.specs.declared.types.names.Names.{Names};
ghost use Rattle.types_parse.specs.grammar.Grammar.{Name};
ghost use Rattle.text_literal.specs.literal_grammar.Literal.{LiteralHead, Literal, labelled, Plain};
ghost use Rattle.text_literal.specs.literal_grammar.Literal.{Parts, FieldRows};
ghost use Rattle.text_literal.specs.literal_grammar.Literal.{array, fields};
ghost use Rattle.text_literal.specs.literal_grammar.LiteralNodes.{rows_count};
ghost use Rattle.text_literal.specs.parser.LiteralLeaves as leaves;
ghost use Rattle.text_literal.specs.parser.LiteralLeaves.{leaf_in};
ghost use Rattle.text_literal.specs.parser.LiteralAnswers.{shape_in, names_in};
ghost use Rattle.text_literal.specs.parser.Pending.{parts_of};
ghost use Rattle.text_literal.specs.parser.Standing.{Stands, own_node, lead_of_owner};
ghost use Rattle.text_literal.specs.parser.Standing.{lead_of_plain};
ghost use Rattle.text_literal.specs.parser.Starts.{start_at, if_fits, doubles_start, and_bits};
ghost use Rattle.text_literal.specs.parser.Starts.{bits_of};
ghost use Rattle.text_literal.specs.parser.Starts.{bits_of_parts, bits_of_rows, names_of_rows};
ghost use Rattle.text_literal.specs.parser.Starts as starts;
ghost use Rattle.text_literal.specs.parser.Started.{start_in, IsSound};
ghost use Rattle.text_literal.specs.parser.Underway.{IsText};

use crate::literal_grammar::{LiteralNode, NodeForm};
use crate::parser::doubles::doubles_of_parts;
use crate::parser::fields::field_names;
use crate::parser::leaf::{Leaf, leaf_of};
use crate::parser::literal_text::LiteralText;
use crate::parser::name_lists::same_names;
use crate::parser::opening::{
    Opening, applied_opening, array_opening, inline_opening, record_opening, tuple_opening,
};
use base_data::model::Memory;
use std::alloc::Global;
use types_lex::lexeme::{LexemeKind, Symbol};
use types_spec::types::names::Names;
use types_spec::types::shape::ShapeOf;
use types_table::type_table::TypeTable;

/// The beginning of a literal at a type: a leaf, doubles in one object, or a block.
#[derive(Drop)]
pub enum Start<'a> {
    Leaf(Leaf<'a>),
    Doubles(Vec<u64>),
    Opening(Opening<'a>),
}

/// Reads the parts of the literal at node `j` as doubles in one object.
fn doubles_at<'a>(alloc: Global, text: &LiteralText<'a>, j: usize) -> Result<Start<'a>, Memory>
    requires { j < length text.now.nodes.now }
    ensures array { (t k : ℕ) (l : Option ℕ) (ps : Parts) (v : Literal)
        → Stands text.now.nodes.now text.now.lexemes.now j k (labelled l (array ps v))
        → IfOk result
        (λ start. start_in t start ≡ doubles_start (and_bits (bits_of_parts ps) (bits_of v))) }
    ensures flat { (t k : ℕ) (l : Option ℕ) (rs : FieldRows) (x : Name) (v : Literal)
        → Stands text.now.nodes.now text.now.lexemes.now j k (labelled l (fields None rs x v))
        → IfOk result
        (λ start. start_in t start ≡ doubles_start (and_bits (bits_of_rows rs) (bits_of v))) }
    ensures sound { IfOk result IsSound }
{
    match doubles_of_parts(alloc, text.nodes, j, text.lexemes)? {
        Some(all) => Ok(Start::Doubles(all)),
        None => Ok(Start::Leaf(Leaf::Mismatch)),
    }
}

/// Reads the beginning of an array literal.
fn array_start<'a>(
    alloc: Global,
    text: &LiteralText<'a>,
    j: usize,
    shape: &'a ShapeOf<usize>,
) -> Result<Start<'a>, Memory>
    requires { j < length text.now.nodes.now }
    ensures start { (t k : ℕ) (names : Names) (l : Option ℕ) (ps : Parts) (v : Literal)
        → Stands text.now.nodes.now text.now.lexemes.now j k (labelled l (array ps v))
        → IfOk result (λ start. start_in t start ≡ start_at t shape.now names (array ps v)) }
    ensures sound { IfOk result IsSound }
{
    match shape {
        ShapeOf::FloatArray => doubles_at(alloc, text, j),
        _ => Ok(Start::Opening(array_opening(shape))),
    }
}

/// Returns true if `parts` fields with these names are the fields of a flat float record.
fn is_flat(names: &Names, wanted: &[&[u8]], many: u64, parts: usize) -> bool
    ensures { result
        ≡ (starts.same_names names.now.fields (map (λ name. name.now) wanted.now)
        && many == parts) }
{
    same_names(names.fields.as_slice(), wanted) && many == parts as u64
}

/// Reads the fields of a flat float record, if the fields match the record.
fn flat_start<'a>(
    alloc: Global,
    text: &LiteralText<'a>,
    j: usize,
    fits: bool,
) -> Result<Start<'a>, Memory>
    requires { j < length text.now.nodes.now }
    ensures fits { (t k : ℕ) (l : Option ℕ) (rs : FieldRows) (x : Name) (v : Literal)
        → Stands text.now.nodes.now text.now.lexemes.now j k (labelled l (fields None rs x v))
        → IfOk result
        (λ start. start_in t start
        ≡ if_fits fits (doubles_start (and_bits (bits_of_rows rs) (bits_of v)))) }
    ensures sound { IfOk result IsSound }
{
    if fits {
        doubles_at(alloc, text, j)
    } else {
        Ok(Start::Leaf(Leaf::Mismatch))
    }
}

/// Reads the beginning of a literal with fields in braces and without a constructor name.
fn record_start<'a>(
    alloc: Global,
    text: &LiteralText<'a>,
    j: usize,
    shape: &'a ShapeOf<usize>,
    names: &Names,
    wanted: &[&[u8]],
    parts: usize,
) -> Result<Start<'a>, Memory>
    requires { j < length text.now.nodes.now }
    ensures start { (t k : ℕ) (l : Option ℕ) (rs : FieldRows) (x : Name) (v : Literal)
        → Stands text.now.nodes.now text.now.lexemes.now j k (labelled l (fields None rs x v))
        → parts ≡ suc (rows_count rs)
        → map (λ name. name.now) wanted.now ≡ names_of_rows rs ++ x ∷ []
        → IfOk result
        (λ start. start_in t start ≡ start_at t shape.now names.now (fields None rs x v)) }
    ensures sound { IfOk result IsSound }
{
    match shape {
        ShapeOf::FlatFloats(_, many) => {
            let fits = is_flat(names, wanted, *many, parts);
            flat_start(alloc, text, j, fits)
        }
        _ => Ok(Start::Opening(record_opening(shape, names, wanted, parts))),
    }
}

/// Reads the beginning of a literal with fields in braces. The first lexeme determines whether the
/// literal has a constructor name.
fn fields_start<'a>(
    alloc: Global,
    text: &LiteralText<'a>,
    j: usize,
    shape: &'a ShapeOf<usize>,
    names: &Names,
    kind: &LexemeKind,
    parts: usize,
) -> Result<Start<'a>, Memory>
    requires text { IsText text.now }
    requires node { j < length text.now.nodes.now }
    ensures start { (t k : ℕ) (l : Option ℕ) (o : Option LiteralHead) (rs : FieldRows) (x : Name)
        (v : Literal)
        → Stands text.now.nodes.now text.now.lexemes.now j k (labelled l (fields o rs x v))
        → kind.now ≡ lead_of_owner o → parts ≡ suc (rows_count rs)
        → IfOk result
        (λ start. start_in t start ≡ start_at t shape.now names.now (fields o rs x v)) }
    ensures sound { IfOk result IsSound }
{
    let wanted = field_names(alloc, text.nodes, text.ends, j, text.lexemes)?;
    match kind {
        LexemeKind::Symbol(Symbol::OpenBrace) => {
            record_start(alloc, text, j, shape, names, &wanted, parts)
        }
        _ => Ok(Start::Opening(inline_opening(shape, names, kind, &wanted, parts))),
    }
}

/// Reads the beginning of a literal with parts, from the literal's node and first lexeme.
#[inline(always)]
fn opening_start<'a>(
    alloc: Global,
    text: &LiteralText<'a>,
    j: usize,
    node: LiteralNode,
    shape: &'a ShapeOf<usize>,
    names: &Names,
    kind: &LexemeKind,
) -> Result<Start<'a>, Memory>
    requires text { IsText text.now }
    requires node { j < length text.now.nodes.now }
    requires parts { 0 < node.parts }
    ensures start { (t k : ℕ) (l : Option ℕ) (p : Plain)
        → Stands text.now.nodes.now text.now.lexemes.now j k (labelled l p)
        → node ≡ own_node k (labelled l p) → kind.now ≡ lead_of_plain p
        → IfOk result (λ start. start_in t start ≡ start_at t shape.now names.now p) }
    ensures sound { IfOk result IsSound }
{
    match node.form {
        NodeForm::Tuple => Ok(Start::Opening(tuple_opening(shape, names, node.parts))),
        NodeForm::Named => Ok(Start::Opening(applied_opening(shape, names, kind, node.parts))),
        NodeForm::Array => array_start(alloc, text, j, shape),
        NodeForm::Fields => fields_start(alloc, text, j, shape, names, kind, node.parts),
        _ => Ok(Start::Leaf(Leaf::Mismatch)),
    }
}

/// Returns the shape of a type if the table has the type.
#[inline(always)]
fn shape_of(table: &TypeTable, t: usize) -> Option<&ShapeOf<usize>>
    ensures { option_map (λ shape. shape.now) result ≡ slice_get table.now.nodes t }
{
    table.nodes().get(t)
}

/// Reads a literal without parts at a type. `kind` is the kind of the first lexeme after the
/// literal's label.
#[inline(always)]
pub fn leaf_at<'k>(table: &TypeTable, kind: &'k LexemeKind, t: usize) -> Leaf<'k>
    ensures leaf { (k : ℕ) (p : Plain) → kind.now ≡ lead_of_plain p → length (parts_of k p) ≡ 0
        → leaf_in result ≡ start_at t (shape_in table.now t) (names_in table.now t) p }
    ensures sound { leaves.IsSound result }
{
    match shape_of(table, t) {
        Some(shape) => leaf_of(shape, table.names(t), kind),
        None => Leaf::Mismatch,
    }
}

/// Reads the beginning of the literal with parts at node `j` at a type. The argument `node` is the
/// node `j`, and `kind` is the kind of the first lexeme after the label.
#[inline(always)]
pub fn start_of<'a>(
    alloc: Global,
    text: &LiteralText<'a>,
    j: usize,
    node: LiteralNode,
    kind: &LexemeKind,
    t: usize,
) -> Result<Start<'a>, Memory>
    requires text { IsText text.now }
    requires node { j < length text.now.nodes.now }
    requires parts { 0 < node.parts }
    ensures start { (k : ℕ) (l : Option ℕ) (p : Plain)
        → Stands text.now.nodes.now text.now.lexemes.now j k (labelled l p)
        → node ≡ own_node k (labelled l p) → kind.now ≡ lead_of_plain p
        → IfOk result
        (λ start. start_in t start
        ≡ start_at t (shape_in text.now.table.now t) (names_in text.now.table.now t) p) }
    ensures sound { IfOk result IsSound }
{
    let Some(shape) = shape_of(text.table, t) else {
        return Ok(Start::Leaf(Leaf::Mismatch));
    };
    let names = text.table.names(t);
    opening_start(alloc, text, j, node, shape, names, kind)
}
