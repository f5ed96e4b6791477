//! Adds a complete token to the graph (`intern.c`).

ghost use Rattle.std.specs.Prelude.{◌≡◌, ◌≤◌, ◌<◌, ◌*◌, ◌/◌, ◌%◌, ◌^◌, ℕ, List, length, OnOk, Some};
ghost use Rattle.std.specs.Prelude.{MatchBool};
ghost use Rattle.base_data.specs.declared.model.value.Obj.TheVariants as objects;
ghost use Rattle.base_data.specs.model.Bytes.{number, EncodesDoubles};
ghost use Rattle.base_data.specs.declared.model.code.Measure.TheVariants as measures;
ghost use Rattle.marshal_spec.specs.format.Raw.{measure_after, block_measure};
ghost use Rattle.marshal_spec.specs.format.Token.{Token, leaf, word_token, EncodesAfter};
ghost use Rattle.marshal_spec.specs.format.Words.{of_object, fields};
ghost use Rattle.marshal_read.specs.Build.{absorb_in, Fits};
ghost use Rattle.marshal_read.specs.Contents.{EncodesTokenAfter};

use crate::content::{custom_value, doubles_of};
use crate::graph_builder::Builder;
use crate::token_sizes::double_bits;
use base_data::model::Memory;
use base_data::model::bytes::{big_endian, double, signed, skip};
use base_data::model::code::CodeKind;
use marshal_codec::codes::KnownKind;
use marshal_codec::token::{number_at, number_of, signed_of};
use std::alloc::Global;

/// Adds the block or atom that a header word describes.
fn word(builder: &mut Builder, bytes: &[u8]) -> Result<(), Memory>
    requires few { length bytes.now ≤ 8 }
    requires range { number bytes.now % 256 ≤ 243 }
    requires small { number bytes.now / 1024 < 2 ^ 53 }
    requires fits { Fits builder.old (block_measure (number bytes.now / 1024)) }
    ensures { OnOk result (builder.new ≡ absorb_in builder.old (word_token (number bytes.now))) }
{
    let header = big_endian(bytes);
    builder.block((header % 256) as u8, header / 1024)
}

/// Adds the block or atom that a header word describes, if the block needs no new memory. Returns
/// true if the block or atom was added.
#[inline(always)]
fn word_in_room(builder: &mut Builder, bytes: &[u8]) -> bool
    requires few { length bytes.now ≤ 8 }
    requires range { number bytes.now % 256 ≤ 243 }
    requires small { number bytes.now / 1024 < 2 ^ 53 }
    requires fits { Fits builder.old (block_measure (number bytes.now / 1024)) }
    ensures { MatchBool result
        (builder.new ≡ absorb_in builder.old (word_token (number bytes.now)))
        (builder.new ≡ builder.old) }
{
    let header = number_of(bytes);
    let tag = (header % 256) as u8;
    let size = header / 1024;
    if size == 0 {
        builder.atom(tag);
        return true;
    }
    builder.block_in_room(tag, size)
}

/// Adds an array of `count` doubles.
fn doubles(
    alloc: Global,
    builder: &mut Builder,
    bytes: &[u8],
    count: u64,
    little: bool,
) -> Result<(), Memory>
    requires some { 0 < count }
    requires small { count < 2 ^ 53 }
    requires fits { Fits builder.old (Some (measures.Doubles count)) }
    requires whole { length bytes.now ≡ 8 * count }
    ensures { OnOk result
        ((all : List ℕ) → EncodesDoubles little all bytes.now
        → builder.new ≡ absorb_in builder.old (leaf (objects.Doubles all))) }
{
    let all = doubles_of(alloc, bytes, count as usize, little)?;
    builder.doubles(all)
}

/// Adds the token of kind `kind` whose bytes after the code are `rest`, if the kind is common and
/// no new memory is needed. Returns whether the token was added.
#[inline(always)]
pub fn decode_in_room(builder: &mut Builder, kind: KnownKind, rest: &[u8]) -> bool
    requires small { length rest.now < 2 ^ 53 }
    requires size { of_object fields (measure_after kind.kind rest.now) < 2 ^ 53 }
    requires fits { Fits builder.old (measure_after kind.kind rest.now) }
    requires encoded { EncodesTokenAfter kind.kind rest.now (length builder.old.built.objects) }
    ensures { MatchBool result
        ((t : Token) → EncodesAfter kind.kind rest.now t → builder.new ≡ absorb_in builder.old t)
        (builder.new ≡ builder.old) }
{
    match kind.kind {
        CodeKind::SmallBlock(tag, size) => {
            if size == 0 {
                builder.atom(tag);
                return true;
            }
            builder.block_in_room(tag, u64::from(size))
        }
        CodeKind::SmallInt(value) => {
            builder.integer(i64::from(value));
            true
        }
        CodeKind::SmallString(_) => builder.bytes_in_room(rest),
        CodeKind::Int(_) => {
            builder.integer(signed_of(rest));
            true
        }
        CodeKind::Shared(_) => {
            builder.shared(number_of(rest));
            true
        }
        CodeKind::Block(_) => word_in_room(builder, rest),
        CodeKind::Str(width) => builder.bytes_in_room(skip(rest, usize::from(width))),
        CodeKind::Double(little) => builder.double_in_room(double_bits(rest, little)),
        _ => false,
    }
}

/// Adds the token of kind `kind` whose bytes after the code are `rest`. Fails with `Memory` if
/// memory runs out.
#[inline(always)]
pub fn decode(
    alloc: Global,
    builder: &mut Builder,
    kind: KnownKind,
    rest: &[u8],
) -> Result<(), Memory>
    requires small { length rest.now < 2 ^ 53 }
    requires size { of_object fields (measure_after kind.kind rest.now) < 2 ^ 53 }
    requires fits { Fits builder.old (measure_after kind.kind rest.now) }
    requires encoded { EncodesTokenAfter kind.kind rest.now (length builder.old.built.objects) }
    ensures { OnOk result
        ((t : Token) → EncodesAfter kind.kind rest.now t → builder.new ≡ absorb_in builder.old t) }
{
    match kind.kind {
        CodeKind::SmallBlock(tag, size) => builder.block(tag, u64::from(size)),
        CodeKind::SmallInt(value) => {
            builder.integer(i64::from(value));
            Ok(())
        }
        CodeKind::SmallString(_) => builder.bytes(rest),
        CodeKind::Int(_) => {
            builder.integer(signed(rest));
            Ok(())
        }
        CodeKind::Shared(_) => {
            builder.shared(big_endian(rest));
            Ok(())
        }
        CodeKind::Block(_) => word(builder, rest),
        CodeKind::Str(width) => builder.bytes(skip(rest, usize::from(width))),
        CodeKind::Double(little) => builder.double(double(rest, little)),
        CodeKind::Doubles(width, little) => {
            let count = number_at(rest, width);
            doubles(
                alloc,
                builder,
                skip(rest, usize::from(width)),
                count,
                little,
            )
        }
        CodeKind::Custom(_) => builder.custom(custom_value(rest)),
    }
}
