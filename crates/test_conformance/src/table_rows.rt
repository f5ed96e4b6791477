//! Prints the row of a type in a table.

use base_data::model::Memory;
use base_data::model::list::List;
use itoa::Buffer;
use types_spec::types::names::{ConstrNames, Names, TagName};
use types_spec::types::shape::{Constr, PolyTag, ShapeOf};

/// The row of a type: the type's text, its shape over indices, the index of the first type that is
/// equal to it, and its names.
#[derive(Drop)]
pub struct TypeRow<'a> {
    pub text: List<u8>,
    pub shape: &'a ShapeOf<usize>,
    pub first: usize,
    pub names: &'a Names,
}

/// Appends a text.
pub fn write(out: &mut Vec<u8>, text: &[u8]) -> Result<(), Memory> {
    out.extend_from_slice(text)?;
    Ok(())
}

/// Appends a number.
pub fn write_number(out: &mut Vec<u8>, number: usize) -> Result<(), Memory> {
    write(out, Buffer::new().format(number).as_bytes())
}

// Appends the index of a type.
fn write_position(out: &mut Vec<u8>, number: usize) -> Result<(), Memory> {
    write(out, b" ")?;
    write_number(out, number)
}

// Appends the indices of types.
fn write_positions(out: &mut Vec<u8>, numbers: &[usize]) -> Result<(), Memory> {
    for number in numbers {
        write_position(out, *number)?;
    }
    Ok(())
}

// Appends `mutable` if `mutable` is true.
fn write_mutable(out: &mut Vec<u8>, mutable: bool) -> Result<(), Memory> {
    write(out, if mutable { b" mutable" } else { b"" })
}

// Appends the number of constants, and the blocks, of a sum type.
fn write_sum(out: &mut Vec<u8>, constants: u64, blocks: &[Constr<usize>]) -> Result<(), Memory> {
    write_number(out, constants as usize)?;
    for block in blocks {
        write(out, b",")?;
        write_mutable(out, block.mutable)?;
        write_positions(out, block.fields.as_slice())?;
    }
    Ok(())
}

// Appends tags of a polymorphic variant, each as the hash of the tag.
fn write_tags(out: &mut Vec<u8>, tags: &[PolyTag<usize>]) -> Result<(), Memory> {
    for tag in tags {
        write(out, if tag.hash < 0 { b", -" } else { b", " })?;
        write_number(out, tag.hash.unsigned_abs() as usize)?;
        if let Some(argument) = tag.arg {
            write_position(out, argument)?;
        }
    }
    Ok(())
}

// Returns the text with which the row of a shape begins.
fn word(shape: &ShapeOf<usize>) -> &'static [u8] {
    match shape {
        ShapeOf::AnyInt => b"any integer",
        ShapeOf::Below(_) => b"below ",
        ShapeOf::Bytes(_) => b"bytes",
        ShapeOf::Double => b"double",
        ShapeOf::Int32 => b"int32",
        ShapeOf::Int64 => b"int64",
        ShapeOf::Native => b"nativeint",
        ShapeOf::Sum(_, _) => b"sum ",
        ShapeOf::Product(_, _) => b"product",
        ShapeOf::FlatFloats(_, _) => b"flat",
        ShapeOf::ArrayOf(_) => b"array of",
        ShapeOf::FloatArray => b"float array",
        ShapeOf::Poly(_) => b"tags",
        ShapeOf::Variable => b"variable",
        ShapeOf::ArrayOfVariable => b"array of a variable",
        ShapeOf::Anything => b"anything",
        ShapeOf::ArrayOfAnything(_) => b"array of anything",
    }
}

// Returns true if the values of a shape are mutable.
fn is_mutable(shape: &ShapeOf<usize>) -> bool {
    match shape {
        ShapeOf::Bytes(mutable) => *mutable,
        ShapeOf::Product(mutable, _) => *mutable,
        ShapeOf::FlatFloats(mutable, _) => *mutable,
        _ => false,
    }
}

// Appends a shape.
fn write_shape(out: &mut Vec<u8>, shape: &ShapeOf<usize>) -> Result<(), Memory> {
    write(out, word(shape))?;
    write_mutable(out, is_mutable(shape))?;
    match shape {
        ShapeOf::Below(many) => write_number(out, *many as usize),
        ShapeOf::Sum(constants, blocks) => write_sum(out, *constants, blocks.as_slice()),
        ShapeOf::Product(_, fields) => write_positions(out, fields.as_slice()),
        ShapeOf::FlatFloats(_, many) => write_position(out, *many as usize),
        ShapeOf::ArrayOf(element) | ShapeOf::ArrayOfAnything(element) => write_position(
            out, *element,
        ),
        ShapeOf::Poly(tags) => write_tags(out, tags.as_slice()),
        _ => Ok(()),
    }
}

// Appends names.
fn write_names(out: &mut Vec<u8>, names: &[List<u8>]) -> Result<(), Memory> {
    for name in names {
        write(out, b" ")?;
        write(out, name.as_slice())?;
    }
    Ok(())
}

// Appends the name of a constructor with arguments, and the names of the constructor's fields.
fn write_constructor(out: &mut Vec<u8>, constructor: &ConstrNames) -> Result<(), Memory> {
    write(out, b" ")?;
    write(out, constructor.name.as_slice())?;
    write(out, b"(")?;
    write_names(out, constructor.fields.as_slice())?;
    write(out, b" )")
}

// Appends a tag and the hash of the tag.
fn write_hashed(out: &mut Vec<u8>, tag: &TagName) -> Result<(), Memory> {
    write(out, b" `")?;
    write(out, tag.name.as_slice())?;
    write(out, if tag.hash < 0 { b" -" } else { b" " })?;
    write_number(out, tag.hash.unsigned_abs() as usize)
}

// Appends the names of a type.
fn write_all_names(out: &mut Vec<u8>, names: &Names) -> Result<(), Memory> {
    write_names(out, names.constants.as_slice())?;
    for constructor in names.constructors.as_slice() {
        write_constructor(out, constructor)?;
    }
    write(out, b" {")?;
    write_names(out, names.fields.as_slice())?;
    write(out, b" }")?;
    for tag in names.tags.as_slice() {
        write_hashed(out, tag)?;
    }
    Ok(())
}

/// Appends the row of a type.
pub fn write_row(out: &mut Vec<u8>, row: &TypeRow<'_>) -> Result<(), Memory> {
    write(out, row.text.as_slice())?;
    write(out, b": ")?;
    write_shape(out, row.shape)?;
    write(out, b"; as ")?;
    write_number(out, row.first)?;
    write(out, b";")?;
    write_all_names(out, row.names)
}
