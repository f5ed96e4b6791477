//! The texts of values without parts, by the representation (`ShapeOf`) and the names of their
//! type.

ghost use Rattle.std.specs.Prelude.{◌≡◌, ◌<◌, ◌++◌, map, IsTrue, OnOk, unwrap_or, slice_get, []};
ghost use Rattle.types_spec.specs.types.Fitting.{fits_int, is_below};
ghost use Rattle.marshal_heap.specs.heap.Heap.{custom_object, IsReferenceWord, ForNamed};
ghost use Rattle.text_print.specs.leaves.LeafTexts.{below_text};
ghost use Rattle.text_print.specs.leaves.Frames.{int_text, double_text, object_text, natural};
ghost use Rattle.text_print.specs.leaves.Frames.{tag_text};
ghost use Rattle.text_print.specs.leaves.Frames.{row_from, row_text};
ghost use Rattle.text_print.specs.leaves.FrameView.{frame_in};

use crate::leaves::frame::{Frame, doubles_frame_of, name_of_tag};
use crate::leaves::number_text::{
    write_below, write_float, write_int, write_int32, write_int64, write_native,
};
use crate::leaves::string_text::write_string_of;
use crate::leaves::text_bytes::write_name;
use base_data::model::Memory;
use base_data::model::code::Custom;
use base_data::model::list::List;
use base_data::text::write;
use marshal_heap::heap::{Heap, Kind};
use types_spec::types::names::Names;
use types_spec::types::shape::ShapeOf;

/// Appends the text of an integer that matches the type's representation.
#[inline(always)]
pub fn write_int_at(
    text: &mut Vec<u8>,
    z: i64,
    shape: &ShapeOf<usize>,
    names: &Names,
) -> Result<(), Memory>
    requires fits { IsTrue (fits_int shape.now z) }
    ensures { OnOk result (text.new.items ≡ text.old.items ++ int_text shape.now names.now z) }
{
    match shape {
        ShapeOf::Below(many) => write_int_below(text, *many, z),
        ShapeOf::Sum(constants, _) => write_constant(
            text,
            *constants,
            z,
            names.constants.as_slice(),
        ),
        ShapeOf::Poly(_) => write_tag(text, z, names),
        _ => write_int(text, z),
    }
}

/// Appends the text of an integer below `many`. No type has more than 256 such values, and an
/// integer above 255 gives an error.
fn write_int_below(text: &mut Vec<u8>, many: u64, z: i64) -> Result<(), Memory>
    requires { IsTrue (is_below many z) }
    ensures { OnOk result (text.new.items ≡ text.old.items ++ below_text many (natural z)) }
{
    match u8::try_from(z) {
        Ok(value) => write_below(text, many, value),
        Err(_) => Err(Memory),
    }
}

/// Appends the name of a constant constructor, if the constructor has a name.
#[inline(always)]
fn write_constant(
    text: &mut Vec<u8>,
    many: u64,
    z: i64,
    constants: &[List<u8>],
) -> Result<(), Memory>
    requires { IsTrue (is_below many z) }
    ensures { OnOk result
        (text.new.items ≡ text.old.items ++ unwrap_or (slice_get constants.now (natural z)) []) }
{
    if z as usize >= constants.len() {
        return Ok(());
    }
    write_name(text, constants[z as usize].as_slice())
}

/// Appends the tag with hash `hash`.
fn write_tag(text: &mut Vec<u8>, hash: i64, names: &Names) -> Result<(), Memory>
    ensures { OnOk result (text.new.items ≡ text.old.items ++ tag_text names.now hash) }
{
    write(text, b"`")?;
    write(text, name_of_tag(names.tags.as_slice(), hash))
}

/// Appends the text of an object without parts, to which a reference's word leads. If the object is
/// a block, appends nothing.
#[inline(always)]
pub fn write_object_at(
    text: &mut Vec<u8>,
    heap: &Heap,
    word: u64,
    shape: &ShapeOf<usize>,
    names: &Names,
) -> Result<(), Memory>
    requires { IsReferenceWord heap.now word }
    ensures { ForNamed heap.now word
        (λ object. OnOk result
        (text.new.items ≡ text.old.items ++ object_text shape.now names.now object)) }
{
    match heap.kind_at(word) {
        Kind::Block(_, _) => Ok(()),
        Kind::Bytes(len) => write_string_of(text, heap.body_at(word), len as usize),
        Kind::Double => write_float(text, heap.body_at(word)[0]),
        Kind::Doubles(_) => write_doubles_at(
            text,
            heap.body_at(word),
            shape,
            &doubles_frame_of(shape, names),
        ),
        Kind::Custom(custom) => write_custom_at(text, custom, shape, names),
    }
}

/// Appends the text of an array of doubles with its frame.
fn write_doubles_at(
    text: &mut Vec<u8>,
    doubles: &[u64],
    shape: &ShapeOf<usize>,
    frame: &Frame<'_>,
) -> Result<(), Memory>
    ensures { OnOk result
        (text.new.items
        ≡ text.old.items
        ++ row_text (frame_in frame.now) (map (double_text shape.now) doubles.now)) }
{
    frame.write_opening(text)?;
    write_double_parts(text, doubles, shape, frame)?;
    frame.write_closing(text)
}

/// Appends each double of an array, preceded by the text before the double.
fn write_double_parts(
    text: &mut Vec<u8>,
    doubles: &[u64],
    shape: &ShapeOf<usize>,
    frame: &Frame<'_>,
) -> Result<(), Memory>
    ensures { OnOk result
        (text.new.items
        ≡ text.old.items
        ++ row_from (frame_in frame.now) 0 (map (double_text shape.now) doubles.now)) }
{
    for i in 0..doubles.len() {
        frame.write_before(text, i as u64)?;
        write_double(text, shape, doubles[i])?;
    }
    Ok(())
}

/// Appends a double of an array. In an array of wildcard elements, appends `_`.
fn write_double(text: &mut Vec<u8>, shape: &ShapeOf<usize>, bits: u64) -> Result<(), Memory>
    ensures { OnOk result (text.new.items ≡ text.old.items ++ double_text shape.now bits) }
{
    match shape {
        ShapeOf::ArrayOfAnything(_) => write(text, b"_"),
        _ => write_float(text, bits),
    }
}

/// Appends the text of a custom block, which does not depend on the type.
fn write_custom_at(
    text: &mut Vec<u8>,
    custom: Custom,
    shape: &ShapeOf<usize>,
    names: &Names,
) -> Result<(), Memory>
    ensures { OnOk result
        (text.new.items
        ≡ text.old.items ++ object_text shape.now names.now (custom_object custom)) }
{
    match custom {
        Custom::I32(n) => write_int32(text, n),
        Custom::I64(n) => write_int64(text, n),
        Custom::Native(n) => write_native(text, n),
    }
}
