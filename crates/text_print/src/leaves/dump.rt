//! The lines of an untyped graph.

ghost use Rattle.std.specs.Prelude.{◌≡◌, ◌++◌, length, OnOk};
ghost use Rattle.std.specs.List.{flat_map};
ghost use Rattle.marshal_heap.specs.heap.Heap.{object_at, fields_of, doubles_of, IsOfKind};
ghost use Rattle.text_print.specs.leaves.DumpedObjects.{value_text, spaced_value, spaced_float};
ghost use Rattle.text_print.specs.leaves.DumpedObjects.{custom_text};
ghost use Rattle.text_print.specs.leaves.DumpedObjects.{text_of_kind, root_line, object_line};

use crate::leaves::number_text::{write_float, write_int};
use crate::leaves::string_text::write_string_of;
use base_data::model::Memory;
use base_data::model::code::Custom;
use base_data::model::value::Val;
use base_data::text::{write, write_number};
use marshal_heap::heap::{Kind, NumberedObject};

/// Appends the line of the root.
pub fn write_root_line(text: &mut Vec<u8>, root: Val) -> Result<(), Memory>
    ensures { OnOk result (text.new.items ≡ text.old.items ++ root_line root) }
{
    write(text, b"root ")?;
    write_value(text, root)?;
    write(text, b"\n")
}

/// Appends the line of an object.
#[tactic(auto, using(crate::proofs::leaves::LeafDumpLemmas::text_by_kind))]
pub fn write_object_line(text: &mut Vec<u8>, placed: &NumberedObject<'_>) -> Result<(), Memory>
    ensures { OnOk result
        (text.new.items
        ≡ text.old.items
        ++ object_line placed.now.object (object_at placed.now.heap.now placed.now.object)) }
{
    write(text, b"#")?;
    write_number(text, placed.object)?;
    write_object(text, placed, placed.heap.kind(placed.object))?;
    write(text, b"\n")
}

/// Appends the description of an object whose kind is `kind`.
fn write_object(text: &mut Vec<u8>, placed: &NumberedObject<'_>, kind: Kind) -> Result<(), Memory>
    requires kind { IsOfKind kind (object_at placed.now.heap.now placed.now.object) }
    ensures { OnOk result
        (text.new.items
        ≡ text.old.items
        ++ text_of_kind kind (object_at placed.now.heap.now placed.now.object)) }
{
    match kind {
        Kind::Block(tag, size) => {
            write(text, b" block ")?;
            write_number(text, u64::from(tag))?;
            write(text, b":")?;
            write_fields(text, placed, size)
        }
        Kind::Bytes(len) => {
            write(text, b" string ")?;
            let heap = placed.heap;
            write_string_of(
                text,
                heap.body_at(heap.word(Val::Ref(placed.object))),
                len as usize,
            )
        }
        Kind::Double => {
            write(text, b" float")?;
            write_doubles(text, placed, 1)
        }
        Kind::Doubles(len) => {
            write(text, b" floats")?;
            write_doubles(text, placed, len)
        }
        Kind::Custom(custom) => write_custom(text, custom),
    }
}

fn write_custom(text: &mut Vec<u8>, custom: Custom) -> Result<(), Memory>
    ensures { OnOk result (text.new.items ≡ text.old.items ++ custom_text custom) }
{
    match custom {
        Custom::I32(n) => {
            write(text, b" int32 ")?;
            write_int(text, i64::from(n))
        }
        Custom::I64(n) => {
            write(text, b" int64 ")?;
            write_int(text, n)
        }
        Custom::Native(n) => {
            write(text, b" nativeint ")?;
            write_int(text, n)
        }
    }
}

fn write_fields(text: &mut Vec<u8>, placed: &NumberedObject<'_>, size: u64) -> Result<(), Memory>
    requires size { size ≡ length (fields_of (object_at placed.now.heap.now placed.now.object)) }
    ensures { OnOk result
        (text.new.items
        ≡ text.old.items
        ++ flat_map spaced_value (fields_of (object_at placed.now.heap.now placed.now.object))) }
{
    let heap = placed.heap;
    let o = placed.object;
    for i in 0..size {
        write_spaced_value(text, heap.field(o, i))?;
    }
    Ok(())
}

fn write_doubles(text: &mut Vec<u8>, placed: &NumberedObject<'_>, len: u64) -> Result<(), Memory>
    requires len { len ≡ length (doubles_of (object_at placed.now.heap.now placed.now.object)) }
    ensures { OnOk result
        (text.new.items
        ≡ text.old.items
        ++ flat_map spaced_float (doubles_of (object_at placed.now.heap.now placed.now.object))) }
{
    let heap = placed.heap;
    let o = placed.object;
    for i in 0..len {
        write_spaced_float(text, heap.double(o, i))?;
    }
    Ok(())
}

fn write_spaced_value(text: &mut Vec<u8>, v: Val) -> Result<(), Memory>
    ensures { OnOk result (text.new.items ≡ text.old.items ++ spaced_value v) }
{
    write(text, b" ")?;
    write_value(text, v)
}

fn write_spaced_float(text: &mut Vec<u8>, bits: u64) -> Result<(), Memory>
    ensures { OnOk result (text.new.items ≡ text.old.items ++ spaced_float bits) }
{
    write(text, b" ")?;
    write_float(text, bits)
}

/// Appends a value. A reference is printed as the number of the object to which the reference
/// leads.
fn write_value(text: &mut Vec<u8>, v: Val) -> Result<(), Memory>
    ensures { OnOk result (text.new.items ≡ text.old.items ++ value_text v) }
{
    match v {
        Val::Int(n) => write_int(text, n),
        Val::Atom(tag) => {
            write(text, b"@")?;
            write_number(text, u64::from(tag))
        }
        Val::Ref(o) => {
            write(text, b"#")?;
            write_number(text, o)
        }
    }
}
