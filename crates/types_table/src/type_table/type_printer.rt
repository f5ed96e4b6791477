//! Writes the text of a type without recursion. Parts that are still to be written wait on a stack.

ghost use Rattle.std.specs.Prelude.{◌≡◌, ◌<◌, ◌++◌, length, All, IfOk, OnOk, codes};
ghost use Rattle.types_spec.specs.types.TypeNodes.{type_at};
ghost use Rattle.types_spec.specs.types.TypeText.{type_text};
ghost use Rattle.types_table.specs.type_table.PrintedTypes.{is_tuple, in_parentheses, added_text};
ghost use Rattle.types_table.specs.type_table.PrintedTypes.{arguments_text};
ghost use Rattle.types_table.specs.type_table.PrintedTypes.{text_of_waiting, IsWithin, IsWritten};

use crate::store::{TypeNode, TypeStore};
use crate::type_table::waiting::{Waiting, before_part, push_parts, stem_of, wait};
use base_data::model::Memory;
use base_data::model::list::List;
use base_data::text::write;
use std::alloc::Global;

/// Returns the text of a type of a store.
pub(crate) fn text_in(alloc: Global, types: &TypeStore, number: usize) -> Result<List<u8>, Memory>
    requires { number < length types.now }
    ensures { IfOk result (λ text. text ≡ type_text (type_at types.now number)) }
{
    let mut text = Vec::new(alloc);
    let mut waiting = Vec::new(alloc);
    write_type(&mut text, &mut waiting, types, number)?;
    // A turn appends a part of the text, and therefore the loop ends long before `u64::MAX` turns.
    for _turn in 0..u64::MAX {
        match waiting.pop() {
            Some(next) => write_next(&mut text, &mut waiting, types, next)?,
            None => return Ok(List::of(text)),
        }
    }
    Err(Memory)
}

/// Appends the text of one waiting item, and pushes the parts of the item that must still be
/// written.
fn write_next<'a>(
    text: &mut Vec<u8>,
    waiting: &mut Vec<Waiting<'a>>,
    types: &'a TypeStore,
    next: Waiting<'a>,
) -> Result<(), Memory>
    requires next { IsWithin types.now next }
    requires within { All (IsWithin types.now) waiting.old.items }
    ensures within { OnOk result (All (IsWithin types.now) waiting.new.items) }
    ensures write { OnOk result
        (IsWritten types.now text.old.items text.new.items waiting.old.items waiting.new.items
        (text_of_waiting types.now next.entry)) }
{
    match next {
        Waiting::Text(bytes) => write(text, bytes),
        Waiting::Added(number, asked) => write_added(text, waiting, types, number, asked),
    }
}

/// Appends the last part of a type.
fn write_added<'a>(
    text: &mut Vec<u8>,
    waiting: &mut Vec<Waiting<'a>>,
    types: &'a TypeStore,
    number: usize,
    asked: bool,
) -> Result<(), Memory>
    requires number { number < length types.now }
    requires within { All (IsWithin types.now) waiting.old.items }
    ensures within { OnOk result (All (IsWithin types.now) waiting.new.items) }
    ensures write { OnOk result
        (IsWritten types.now text.old.items text.new.items waiting.old.items waiting.new.items
        (added_text asked (type_at types.now number))) }
{
    match types.node(number) {
        TypeNode::Part(_, added) => write_part(text, waiting, types, added, asked),
        TypeNode::Including(_, included) => write_part(text, waiting, types, included, asked),
        TypeNode::Tag(_, name) => write_tag(text, name),
        TypeNode::TagOf(_, name, argument) => {
            write_tag(text, name)?;
            write(text, b" of ")?;
            write_type(text, waiting, types, argument)
        }
        _ => Ok(()),
    }
}

/// Appends a type that is a part of another type.
fn write_part<'a>(
    text: &mut Vec<u8>,
    waiting: &mut Vec<Waiting<'a>>,
    types: &'a TypeStore,
    number: usize,
    asked: bool,
) -> Result<(), Memory>
    requires number { number < length types.now }
    requires within { All (IsWithin types.now) waiting.old.items }
    ensures within { OnOk result (All (IsWithin types.now) waiting.new.items) }
    ensures write { OnOk result
        (IsWritten types.now text.old.items text.new.items waiting.old.items waiting.new.items
        (in_parentheses asked (is_tuple (type_at types.now number))
        (type_text (type_at types.now number)))) }
{
    if asked && is_tuple(types, number) {
        write(text, b"(")?;
        wait(waiting, Waiting::Text(b")"))?;
        write_type(text, waiting, types, number)
    } else {
        write_type(text, waiting, types, number)
    }
}

/// Returns true if a type is a tuple.
fn is_tuple(types: &TypeStore, number: usize) -> bool
    requires { number < length types.now }
    ensures { result ≡ is_tuple (type_at types.now number) }
{
    match types.node(stem_of(types, number)) {
        TypeNode::Tuple => true,
        _ => false,
    }
}

/// Appends the beginning of a type, and pushes the remaining parts of the type on the stack.
fn write_type<'a>(
    text: &mut Vec<u8>,
    waiting: &mut Vec<Waiting<'a>>,
    types: &'a TypeStore,
    number: usize,
) -> Result<(), Memory>
    requires number { number < length types.now }
    requires within { All (IsWithin types.now) waiting.old.items }
    ensures within { OnOk result (All (IsWithin types.now) waiting.new.items) }
    ensures write { OnOk result
        (IsWritten types.now text.old.items text.new.items waiting.old.items waiting.new.items
        (type_text (type_at types.now number))) }
{
    match types.node(stem_of(types, number)) {
        TypeNode::Variable(name) => {
            wait(waiting, Waiting::Text(name))?;
            wait(waiting, Waiting::Text(b"'"))?;
            write_arguments(text, waiting, types, number)
        }
        TypeNode::Named(name) => {
            wait(waiting, Waiting::Text(name))?;
            write_arguments(text, waiting, types, number)
        }
        TypeNode::Tuple => push_parts(waiting, types, number, b" * ", true),
        TypeNode::Bracket => {
            write(text, b"[ ")?;
            wait(waiting, Waiting::Text(b" ]"))?;
            push_parts(waiting, types, number, b" | ", false)
        }
        _ => unreachable!(),
    }
}

/// Appends the beginning of a name's arguments, and pushes the remaining arguments on the stack.
fn write_arguments<'a>(
    text: &mut Vec<u8>,
    waiting: &mut Vec<Waiting<'a>>,
    types: &'a TypeStore,
    number: usize,
) -> Result<(), Memory>
    requires number { number < length types.now }
    requires within { All (IsWithin types.now) waiting.old.items }
    ensures within { OnOk result (All (IsWithin types.now) waiting.new.items) }
    ensures write { OnOk result
        (IsWritten types.now text.old.items text.new.items waiting.old.items waiting.new.items
        (arguments_text (type_at types.now number))) }
{
    let Some(whole) = before_part(types, number) else {
        return Ok(());
    };
    if before_part(types, whole).is_none() {
        wait(waiting, Waiting::Text(b" "))?;
        wait(waiting, Waiting::Added(number, true))
    } else {
        write(text, b"(")?;
        wait(waiting, Waiting::Text(b") "))?;
        push_parts(waiting, types, number, b", ", false)
    }
}

/// Appends a tag with its backquote.
fn write_tag(text: &mut Vec<u8>, name: &[u8]) -> Result<(), Memory>
    ensures { OnOk result (text.new.items ≡ text.old.items ++ (codes "`" ++ name.now)) }
{
    write(text, b"`")?;
    write(text, name)
}
