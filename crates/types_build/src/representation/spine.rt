//! The name at the head of a type, and its parts.

ghost use Rattle.std.specs.Prelude.{◌≡◌, ◌<◌, ◌≤◌, length, map, reverse, All, IfOk, option_copied};
ghost use Rattle.types_spec.specs.types.Ty.{name_of, parts};
ghost use Rattle.types_spec.specs.types.TypeNodes.{type_at};
ghost use Rattle.types_build.specs.representation.PlainHeads.{root_of};

use crate::representation::stored::Stored;
use base_data::model::Memory;
use std::alloc::Global;
use types_table::store::TypeNode;

/// Returns the index of the type without its arguments or components.
pub fn root(t: &Stored<'_>) -> usize
    ensures is { type_at t.now.types.now result ≡ root_of (type_at t.now.types.now t.now.number) }
    ensures below { result ≤ t.now.number }
{
    let mut at = t.number;
    while let TypeNode::Part(whole, _) = t.types.node(at) {
        at = whole;
    }
    at
}

/// Returns the name at the start of the type, whose arguments are the type's parts. Returns `None`
/// if the type does not start with a name.
pub fn name<'a>(t: &Stored<'a>) -> Option<&'a [u8]>
    ensures { option_copied result ≡ name_of (type_at t.now.types.now t.now.number) }
{
    let mut at = t.number;
    while let TypeNode::Part(whole, _) = t.types.node(at) {
        at = whole;
    }
    match t.types.node(at) {
        TypeNode::Named(name) => Some(name),
        _ => None,
    }
}

/// Returns the indices of the arguments or components of the type.
pub fn parts(alloc: Global, t: &Stored<'_>) -> Result<Vec<usize>, Memory>
    ensures are { IfOk result
        (λ v. map (type_at t.now.types.now) v.items
        ≡ parts (type_at t.now.types.now t.now.number)) }
    ensures below { IfOk result (λ v. All (λ i. i < length t.now.types.now) v.items) }
    ensures less { IfOk result (λ v. All (λ i. i < t.now.number) v.items) }
{
    let mut found = Vec::new(alloc);
    let mut at = t.number;
    while let TypeNode::Part(whole, added) = t.types.node(at) {
        found.push(added)?;
        at = whole;
    }
    found.reverse();
    Ok(found)
}
