//! The stack of items of a type's text that are still to be written.

ghost use Rattle.std.specs.Prelude.{◌≡◌, ◌<◌, ◌++◌, [], List, None, length, IfSome, OnOk, All};
ghost use Rattle.std.specs.Prelude.{option_map};
ghost use Rattle.types_spec.specs.types.Ty.{Ty};
ghost use Rattle.types_spec.specs.types.TypeNodes.{type_at};
ghost use Rattle.types_table.specs.type_table.PrintedTypes.{whole_of, stem, parts_text};
ghost use Rattle.types_table.specs.type_table.PrintedTypes.{text_of_waiting};
ghost use Rattle.types_table.specs.type_table.PrintedTypes.{waiting_text, IsWithin};

use crate::store::{TypeNode, TypeStore};
use base_data::model::Memory;

/// A waiting item: bytes, or the last part of the type with a number. If the flag of a part is set
/// and the part is a tuple, the part is written in parentheses.
#[derive(Clone, Copy)]
pub(crate) enum Waiting<'a> {
    Text(&'a [u8]),
    Added(usize, bool),
}

/// Pushes an item, which is written before all items that were waiting already.
pub(crate) fn wait<'a>(waiting: &mut Vec<Waiting<'a>>, next: Waiting<'a>) -> Result<(), Memory>
    ensures within { OnOk result
        ((types : List Ty) → IsWithin types next.entry → All (IsWithin types) waiting.old.items
        → All (IsWithin types) waiting.new.items) }
    ensures text { OnOk result
        ((types : List Ty)
        → waiting_text types waiting.new.items
        ≡ text_of_waiting types next.entry ++ waiting_text types waiting.old.items) }
{
    waiting.push(next)?;
    Ok(())
}

/// Pushes the parts of a type, with the bytes `between` between any two of them.
pub(crate) fn push_parts<'a>(
    waiting: &mut Vec<Waiting<'a>>,
    types: &TypeStore,
    number: usize,
    between: &'static [u8],
    asked: bool,
) -> Result<(), Memory>
    requires number { number < length types.now }
    requires within { All (IsWithin types.now) waiting.old.items }
    ensures within { OnOk result (All (IsWithin types.now) waiting.new.items) }
    ensures parts { OnOk result
        (waiting_text types.now waiting.new.items
        ≡ parts_text asked between.now [] (type_at types.now number)
        ++ waiting_text types.now waiting.old.items) }
{
    let mut at = number;
    let mut end: &'static [u8] = b"";
    while let Some(whole) = before_part(types, at) {
        wait(waiting, Waiting::Text(end))?;
        wait(waiting, Waiting::Added(at, asked))?;
        end = between;
        at = whole;
    }
    Ok(())
}

/// Returns the number of the type's stem: the type without any of its parts.
pub(crate) fn stem_of(types: &TypeStore, number: usize) -> usize
    requires { number < length types.now }
    ensures below { result < length types.now }
    ensures same { stem (type_at types.now result) ≡ stem (type_at types.now number) }
    ensures first { whole_of (type_at types.now result) ≡ None }
{
    let mut at = number;
    while let Some(whole) = before_part(types, at) {
        at = whole;
    }
    at
}

/// Returns the number of the type without its last part, or `None` if the type has no parts.
pub(crate) fn before_part(types: &TypeStore, number: usize) -> Option<usize>
    requires { number < length types.now }
    ensures is { option_map (type_at types.now) result ≡ whole_of (type_at types.now number) }
    ensures below { IfSome result (λ i. i < number) }
{
    match types.node(number) {
        TypeNode::Part(whole, _)
        | TypeNode::Tag(whole, _)
        | TypeNode::TagOf(whole, _, _)
        | TypeNode::Including(whole, _) => Some(whole),
        _ => None,
    }
}
