//! Appends descriptions of values to a text.

ghost use Rattle.std.specs.Prelude.{◌≡◌, ◌++◌, OnOk, codes, decimal};
ghost use Rattle.std.specs.Fmt.{signed_decimal};
ghost use Rattle.base_data.specs.model.PathText.{path_text};
ghost use Rattle.types_spec.specs.types.VerdictText.{kind_text};
ghost use Rattle.check_fault.specs.Near.{path_in};
ghost use Rattle.check_fault.specs.FaultText.{step_text, text_of_kind};

use crate::near::NearPath;
use base_data::model::Memory;
use base_data::model::code::Custom;
use base_data::model::value::Val;
use base_data::text::{write, write_number, write_step};
use itoa::Buffer;
use marshal_heap::heap::{Kind, Rooted};

/// Appends the description of a value, such as `int 3` or `block 0 of 2`.
#[tactic(auto, using(crate::proofs::KindTexts::object_text_by_kind))]
pub fn write_kind(text: &mut Vec<u8>, value: &Rooted<'_>) -> Result<(), Memory>
    ensures { OnOk result
        (text.new.items ≡ text.old.items ++ kind_text value.now.heap.now value.now.root) }
{
    match value.root {
        Val::Int(n) => write_int(text, n),
        Val::Atom(tag) => write_atom(text, tag),
        Val::Ref(o) => write_object(text, value.heap.kind(o)),
    }
}

/// Appends the description of an integer: `int` and the number in decimal.
pub fn write_int(text: &mut Vec<u8>, n: i64) -> Result<(), Memory>
    ensures { OnOk result (text.new.items ≡ text.old.items ++ (codes "int " ++ signed_decimal n)) }
{
    write(text, b"int ")?;
    write_integer(text, n)
}

/// Appends the description of an atom: `atom` and the tag in decimal.
pub fn write_atom(text: &mut Vec<u8>, tag: u8) -> Result<(), Memory>
    ensures { OnOk result (text.new.items ≡ text.old.items ++ (codes "atom " ++ decimal tag)) }
{
    write(text, b"atom ")?;
    write_number(text, u64::from(tag))
}

/// Appends the description of an object, given its kind.
pub fn write_object(text: &mut Vec<u8>, kind: Kind) -> Result<(), Memory>
    ensures { OnOk result (text.new.items ≡ text.old.items ++ text_of_kind kind) }
{
    match kind {
        Kind::Block(tag, size) => {
            write(text, b"block ")?;
            write_number(text, u64::from(tag))?;
            write(text, b" of ")?;
            write_number(text, size)
        }
        Kind::Bytes(_) => write(text, b"string"),
        Kind::Double => write(text, b"float"),
        Kind::Doubles(len) => {
            write(text, b"float array of ")?;
            write_number(text, len)
        }
        Kind::Custom(Custom::I32(_)) => write(text, b"int32"),
        Kind::Custom(Custom::I64(_)) => write(text, b"int64"),
        Kind::Custom(Custom::Native(_)) => write(text, b"nativeint"),
    }
}

/// Appends the path to a value near the root.
pub fn write_way(text: &mut Vec<u8>, way: NearPath) -> Result<(), Memory>
    ensures { OnOk result (text.new.items ≡ text.old.items ++ path_text (path_in way)) }
{
    match way {
        NearPath::Root => write(text, b"."),
        NearPath::Field(i) => write_step(text, i),
        NearPath::Part(i, j) => write_two(text, i, j),
    }
}

/// Appends two steps of a path.
fn write_two(text: &mut Vec<u8>, i: u64, j: u64) -> Result<(), Memory>
    ensures { OnOk result (text.new.items ≡ text.old.items ++ (step_text i ++ step_text j)) }
{
    write_step(text, i)?;
    write_step(text, j)
}

fn write_integer(text: &mut Vec<u8>, n: i64) -> Result<(), Memory>
    ensures { OnOk result (text.new.items ≡ text.old.items ++ signed_decimal n) }
{
    write(text, Buffer::new().format(n).as_bytes())
}
