//! The text around and between the parts of a value, over borrowed names.

ghost use Rattle.std.specs.Prelude.{ℕ, List, ◌≡◌, ◌++◌, OnOk, find, option_map};
ghost use Rattle.std.specs.Prelude.{unwrap_or, slice_get, [], ◌∷◌, ◌==◌, if◌then◌else◌, codes};
ghost use Rattle.base_data.specs.declared.model.value.Obj.TheVariants as objects;
ghost use Rattle.types_spec.specs.declared.types.names.TagName.{TagName};
ghost use Rattle.marshal_heap.specs.heap.Heap.{object_at, fields_of};
ghost use Rattle.text_print.specs.leaves.Frames.{frame_of, doubles_frame, named_frame};
ghost use Rattle.text_print.specs.leaves.Frames.{constr_frame};
ghost use Rattle.text_print.specs.leaves.Frames.{is_hash, before_part, tag_of_values};
ghost use Rattle.text_print.specs.leaves.FrameView.{frame_in};

use crate::leaves::text_bytes::{write_few, write_name_reserved, write_reserved};
use base_data::model::Memory;
use base_data::model::list::List;
use base_data::model::value::Val;
use base_data::text::write;
use marshal_heap::heap::{Kind, NumberedObject};
use types_spec::types::names::{ConstrNames, Names, TagName};
use types_spec::types::shape::ShapeOf;

/// The text before, between and after the parts of a value.
#[derive(Clone, Copy)]
pub enum Frame<'a> {
    /// A constructor's name, and the names of the constructor's fields if the fields have names.
    Constructor(&'a ConstrNames),
    /// The names of the fields of a record, or an empty list for a tuple.
    Fields(&'a [List<u8>]),
    /// A tag's name without its backquote.
    Tagged(&'a [u8]),
    Array,
}

impl<'a> Frame<'a> {
    /// Appends the text before all parts of a value.
    #[inline(always)]
    pub fn write_opening(&self, text: &mut Vec<u8>) -> Result<(), Memory>
        ensures { OnOk result (text.new.items ≡ text.old.items ++ (frame_in self.now).opening) }
    {
        match *self {
            Frame::Constructor(names) => write_ended(
                text,
                names.name.as_slice(),
                opening(names.fields.as_slice()),
            ),
            Frame::Fields(fields) => Ok(text.push(opening(fields))?),
            Frame::Tagged(name) => {
                write(text, b"`")?;
                write(text, name)?;
                write(text, b"(")
            }
            Frame::Array => write_few(text, b"[|"),
        }
    }

    /// Appends the text before part `i`: the separator and the label of part `i`.
    #[inline(always)]
    #[tactic(auto, using(crate::proofs::leaves::LeafFrameLemmas::before_is))]
    pub fn write_before(&self, text: &mut Vec<u8>, i: u64) -> Result<(), Memory>
        ensures { OnOk result
            (text.new.items ≡ text.old.items ++ before_part (frame_in self.now) i) }
    {
        match *self {
            Frame::Constructor(names) => write_before_field(text, names.fields.as_slice(), i),
            Frame::Fields(fields) => write_before_field(text, fields, i),
            Frame::Tagged(_) => write_between(text, b", ", i),
            Frame::Array => write_between(text, b"; ", i),
        }
    }

    /// Appends the text after all parts of a value.
    #[inline(always)]
    pub fn write_closing(&self, text: &mut Vec<u8>) -> Result<(), Memory>
        ensures { OnOk result (text.new.items ≡ text.old.items ++ (frame_in self.now).closing) }
    {
        match *self {
            Frame::Constructor(names) => Ok(text.push(closing(names.fields.as_slice()))?),
            Frame::Fields(fields) => Ok(text.push(closing(fields))?),
            Frame::Tagged(_) => Ok(text.push(b')')?),
            Frame::Array => write_few(text, b"|]"),
        }
    }
}

/// Returns the byte before the first field, given the names of the fields.
#[inline(always)]
fn opening(fields: &[List<u8>]) -> u8
    ensures { (name : List ℕ) → (named_frame name fields.now).opening ≡ name ++ result ∷ [] }
{
    if fields.is_empty() { b'(' } else { b'{' }
}

/// Returns the byte after the last field, given the names of the fields.
#[inline(always)]
fn closing(fields: &[List<u8>]) -> u8
    ensures { (name : List ℕ) → (named_frame name fields.now).closing ≡ result ∷ [] }
{
    if fields.is_empty() { b')' } else { b'}' }
}

/// Appends a name and the byte `end`.
#[inline(always)]
fn write_ended(text: &mut Vec<u8>, name: &[u8], end: u8) -> Result<(), Memory>
    ensures { OnOk result (text.new.items ≡ text.old.items ++ (name.now ++ end ∷ [])) }
{
    text.reserve(name.len() + 1)?;
    write_name_reserved(text, name);
    text.push_reserved(end);
    Ok(())
}

/// Appends the separator before part `i`. The first part has no separator.
#[inline(always)]
fn write_between(text: &mut Vec<u8>, between: &[u8], i: u64) -> Result<(), Memory>
    ensures { OnOk result
        (text.new.items ≡ text.old.items ++ (if i == 0 then [] else between.now)) }
{
    if i == 0 {
        return Ok(());
    }
    write_few(text, between)
}

/// Appends the text before field `i`, given the names of the fields.
#[inline(always)]
#[tactic(auto, using(crate::proofs::leaves::LeafFrameLemmas::before_is))]
fn write_before_field(text: &mut Vec<u8>, fields: &[List<u8>], i: u64) -> Result<(), Memory>
    ensures { (name : List ℕ)
        → OnOk result
        (text.new.items ≡ text.old.items ++ before_part (named_frame name fields.now) i) }
{
    if i >= fields.len() as u64 {
        return if fields.is_empty() {
            write_between(text, b", ", i)
        } else {
            write_between(text, b"; ", i)
        };
    }
    write_field_name(text, fields[i as usize].as_slice(), i)
}

/// Appends the separator and the name of field `i`.
#[inline(always)]
fn write_field_name(text: &mut Vec<u8>, name: &[u8], i: u64) -> Result<(), Memory>
    ensures { OnOk result
        (text.new.items
        ≡ text.old.items
        ++ ((if i == 0 then [] else codes "; ") ++ (name.now ++ codes " = "))) }
{
    text.reserve(name.len() + 5)?;
    // A name of one byte needs no loop, and the length of the text changes only once.
    if name.len() == 1 {
        if i > 0 {
            write_reserved(text, &[b';', b' ', name[0], b' ', b'=', b' ']);
        } else {
            write_reserved(text, &[name[0], b' ', b'=', b' ']);
        }
        return Ok(());
    }
    if i != 0 {
        write_reserved(text, b"; ");
    }
    write_name_reserved(text, name);
    write_reserved(text, b" = ");
    Ok(())
}

/// Returns the frame of an object that is a block with tag `tag`.
#[inline(always)]
pub fn block_frame<'a>(
    placed: &NumberedObject<'_>,
    tag: u8,
    shape: &ShapeOf<usize>,
    names: &'a Names,
) -> Frame<'a>
    requires block { object_at placed.now.heap.now placed.now.object
        ≡ objects.Block tag (fields_of (object_at placed.now.heap.now placed.now.object)) }
    ensures { frame_in result
        ≡ frame_of shape.now names.now tag
        (fields_of (object_at placed.now.heap.now placed.now.object)) }
{
    match shape {
        ShapeOf::Sum(_, _) => constructor_frame(names.constructors.as_slice(), tag),
        ShapeOf::Product(_, _) => Frame::Fields(names.fields.as_slice()),
        ShapeOf::Poly(_) => Frame::Tagged(name_of_tag(names.tags.as_slice(), first_int(placed))),
        _ => Frame::Array,
    }
}

/// Returns the frame of a constructor, given the tag of its block.
#[inline(always)]
fn constructor_frame(constructors: &[ConstrNames], tag: u8) -> Frame<'_>
    ensures { frame_in result ≡ constr_frame (slice_get constructors.now tag) }
{
    if tag as usize >= constructors.len() {
        return Frame::Fields(&[]);
    }
    Frame::Constructor(&constructors[tag as usize])
}

/// Returns the name of the tag with hash `hash`, or an empty name if no tag has the hash.
pub fn name_of_tag(tags: &[TagName], hash: i64) -> &[u8]
    ensures { result.now
        ≡ unwrap_or (option_map (λ (tag : TagName). tag.name) (find (is_hash hash) tags.now)) [] }
{
    match tags.iter().find(|tag| tag.hash == hash) {
        Some(tag) => tag.name.as_slice(),
        None => b"",
    }
}

/// Returns the integer in field 0 of a block, or 0 if field 0 contains no integer.
fn first_int(placed: &NumberedObject<'_>) -> i64
    ensures { result
        ≡ tag_of_values (fields_of (object_at placed.now.heap.now placed.now.object)) }
{
    let heap = placed.heap;
    let o = placed.object;
    match heap.kind(o) {
        Kind::Block(_, size) if size > 0 => match heap.field(o, 0) {
            Val::Int(hash) => hash,
            _ => 0,
        },
        _ => 0,
    }
}

/// Returns the frame of an array of doubles.
pub fn doubles_frame_of<'a>(shape: &ShapeOf<usize>, names: &'a Names) -> Frame<'a>
    ensures { frame_in result ≡ doubles_frame shape.now names.now }
{
    match shape {
        ShapeOf::FlatFloats(_, _) => Frame::Fields(names.fields.as_slice()),
        _ => Frame::Array,
    }
}
