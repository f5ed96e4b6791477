//! The kind of a value as text, as in the text of a fault.

ghost use Rattle.std.specs.Prelude.{◌≡◌, ◌++◌, length, OnOk};
ghost use Rattle.base_data.specs.model.Graph.{IsValue};
ghost use Rattle.types_spec.specs.types.VerdictText.{kind_text};

use base_data::model::Memory;
use base_data::model::value::Val;
use base_data::text::{write, write_number};
use check_fault::write_object;
use itoa::Buffer;
use marshal_heap::heap::Heap;

/// Appends the kind of a value.
#[tactic(auto, using(check_fault::proofs::KindTexts::object_text_by_kind))]
pub fn write_kind(text: &mut Vec<u8>, heap: &Heap, v: Val) -> Result<(), Memory>
    requires { IsValue (length heap.now) v }
    ensures { OnOk result (text.new.items ≡ text.old.items ++ kind_text heap.now v) }
{
    match v {
        Val::Int(n) => {
            write(text, b"int ")?;
            write(text, Buffer::new().format(n).as_bytes())
        }
        Val::Atom(tag) => {
            write(text, b"atom ")?;
            write_number(text, u64::from(tag))
        }
        Val::Ref(o) => write_object(text, heap.kind(o)),
    }
}
