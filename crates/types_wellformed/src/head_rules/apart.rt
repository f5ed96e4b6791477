//! A sufficient test that no two tags conflict in any bracket, whatever the brackets include. The
//! test succeeds if each name is written with one argument without variables, and each hash belongs
//! to one name.

ghost use Rattle.std.specs.Prelude.{◌≡◌, ◌+◌, ◌++◌, ◌∷◌, [], length, IfOk, IfSome, OnOk};
ghost use Rattle.std.specs.Prelude.{IsTrue};
ghost use Rattle.types_spec.specs.types.TypeNodes.{type_at};
ghost use Rattle.types_table.specs.store.Held.{Grows};
ghost use Rattle.types_wellformed.specs.head_rules.Apart.{is_closed, ReportsClosed, alone};
ghost use Rattle.types_wellformed.specs.head_rules.Apart.{AreListed, HasBody};
ghost use Rattle.types_wellformed.specs.head_rules.Apart.{NoneConflict, StandApart};
ghost use Rattle.std.specs.Prelude.{All};

use crate::brackets::{TagItem, least_collision, least_conflict};
use crate::head_rules::item::NumberedItem;
use base_data::model::Memory;
use base_data::model::list::List;
use std::alloc::Global;
use types_build::representation::Stored;
use types_spec::types::decl::{Body, Decl};
use types_spec::types::head::TagOf;
use types_table::store::{TypeNode, TypeStore};

/// Returns true if a type contains no variable. `known` states for each earlier type whether the
/// type contains no variable.
fn is_closed(t: &Stored<'_>, known: &[bool]) -> bool
    requires before { length known.now ≡ t.now.number }
    requires known { ReportsClosed t.now.types.now known.now }
    ensures { result ≡ is_closed (type_at t.now.types.now t.now.number) }
{
    match t.types.node(t.number) {
        TypeNode::Variable(_) => false,
        TypeNode::Part(whole, added) => known[whole] && known[added],
        TypeNode::TagOf(whole, _, argument) => known[whole] && known[argument],
        TypeNode::Including(whole, included) => known[whole] && known[included],
        TypeNode::Tag(whole, _) => known[whole],
        _ => true,
    }
}

/// Returns a list that states for each type of the store whether the type contains no variable.
fn closed_types(alloc: Global, types: &TypeStore) -> Result<Vec<bool>, Memory>
    ensures known { IfOk result (λ v. ReportsClosed types.now v.items) }
    ensures all { IfOk result (λ v. length v.items ≡ length types.now) }
{
    let mut known = Vec::new(alloc);
    for number in 0..types.len() {
        let closed = is_closed(&Stored { types, number }, known.as_slice());
        known.push(closed)?;
    }
    Ok(known)
}

/// Appends an item that contains one tag only.
fn write_item(
    alloc: Global,
    items: &mut List<TagItem>,
    name: &[u8],
    argument: Option<usize>,
) -> Result<(), Memory>
    ensures { OnOk result
        (items.new
        ≡ items.old ++ alone (record { name = name.now; argument = argument }) ∷ []) }
{
    let name = List::of(Vec::from_slice(alloc, name)?);
    let mut tags = List::new(alloc);
    tags.push(TagOf { name, argument })?;
    items.push(TagItem { position: 0, tags })?;
    Ok(())
}

/// Appends the tag at the end of a type, if the type ends with a tag. Returns false if the tag
/// contains a variable.
fn write_last(
    alloc: Global,
    t: &Stored<'_>,
    known: &[bool],
    items: &mut List<TagItem>,
) -> Result<bool, Memory>
    requires all { length known.now ≡ length t.now.types.now }
    requires known { ReportsClosed t.now.types.now known.now }
    ensures { IfOk result
        (λ closed. IsTrue closed → AreListed t.now.types.now items.old t.now.number
        → AreListed t.now.types.now items.new (t.now.number + 1)) }
{
    match t.types.node(t.number) {
        TypeNode::Tag(_, name) => {
            write_item(alloc, items, name, None)?;
            Ok(true)
        }
        TypeNode::TagOf(_, name, argument) => {
            write_item(alloc, items, name, Some(argument))?;
            Ok(known[argument])
        }
        _ => Ok(true),
    }
}

/// Returns the tags of the types, each tag as an item, or `None` if one of the tags contains a
/// variable.
fn listed(alloc: Global, types: &TypeStore) -> Result<Option<List<TagItem>>, Memory>
    ensures { IfOk result
        (λ found. IfSome found (λ items. AreListed types.now items (length types.now))) }
{
    let known = closed_types(alloc, types)?;
    let mut items = List::new(alloc);
    for number in 0..types.len() {
        if !write_last(
            alloc,
            &Stored { types, number },
            known.as_slice(),
            &mut items,
        )? {
            return Ok(None);
        }
    }
    Ok(Some(items))
}

/// Returns true only if no two items have one name with two arguments, or two names with one hash.
fn none_conflict(alloc: Global, items: &[TagItem]) -> Result<bool, Memory>
    ensures { IfOk result (λ none. IsTrue none → NoneConflict items.now) }
{
    match least_conflict(alloc, items)? {
        Some(_) => Ok(false),
        None => match least_collision(alloc, items)? {
            Some(_) => Ok(false),
            None => Ok(true),
        },
    }
}

/// Adds the type that a declaration abbreviates, if the declaration is an abbreviation.
fn add_body(alloc: Global, types: &mut TypeStore, decl: &Decl) -> Result<(), Memory>
    ensures grown { Grows types.old types.new }
    ensures there { OnOk result (HasBody types.new decl.now) }
{
    if let Body::Abbreviation(body) = &decl.body {
        let _ = types.add(alloc, body)?;
    }
    Ok(())
}

/// Adds the types that the declarations abbreviate.
fn add_bodies(alloc: Global, types: &mut TypeStore, decls: &[Decl]) -> Result<(), Memory>
    ensures grown { Grows types.old types.new }
    ensures there { OnOk result (All (HasBody types.new) decls.now) }
{
    for decl in decls {
        add_body(alloc, types, decl)?;
    }
    Ok(())
}

/// Returns true only if no two tags that the types contribute can conflict, given the tags that are
/// written in the types and in the declarations. Takes one step for each node and each tag,
/// whatever the number of tags that brackets include. If the result is false, tags may still be
/// without conflict.
pub fn stand_apart(
    alloc: Global,
    types: &mut TypeStore,
    decls: &[Decl],
    brackets: &[List<NumberedItem>],
) -> Result<bool, Memory>
    ensures grown { Grows types.old types.new }
    ensures ok { IfOk result (λ apart. IsTrue apart → StandApart decls.now types.new) }
{
    if brackets.is_empty() {
        return Ok(false);
    }
    add_bodies(alloc, types, decls)?;
    match listed(alloc, types)? {
        Some(items) => none_conflict(alloc, items.as_slice()),
        None => Ok(false),
    }
}
