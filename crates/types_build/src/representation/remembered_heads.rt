//! Remembers the heads of included types, which are found as heads of brackets with one item.

ghost use Rattle.std.specs.Prelude.{◌≡◌, ◌<◌, length, IfOk, OnOk, List};
ghost use Rattle.types_spec.specs.declared.types.decl.Decl.{Decl as Declaration};
ghost use Rattle.types_spec.specs.types.Ty.{Ty};
ghost use Rattle.types_spec.specs.types.TypeNodes.{type_at};
ghost use Rattle.types_table.specs.store.Held.{Grows};
ghost use Rattle.types_build.specs.representation.Tags.{IsHeadOf};
ghost use Rattle.types_build.specs.representation.Heads.{AreHeads, IsTagsHead};

use crate::representation::found_heads::FoundHeads;
use crate::representation::type_heads::head_with;
use base_data::model::Memory;
use base_data::model::list::List;
use indexmap::IndexSet;
use std::alloc::Global;
use types_resolve::scope::SoundEnvironment;
use types_spec::types::head::{HeadOf, TagOf};
use types_table::store::{TypeNode, TypeStore};

/// Heads of included types, with the type index of each included type.
#[derive(Drop)]
pub struct Heads {
    met: IndexSet<usize>,
    heads: Vec<HeadOf<usize>>,
}

/// Makes an empty collection of heads.
pub fn no_heads(alloc: Global) -> Heads
    ensures { (decls : List Declaration) (types : List Ty) → AreHeads decls types result }
{
    Heads {
        met: IndexSet::new(alloc),
        heads: Vec::new(alloc),
    }
}

/// Returns the head of a type like `head_of`. If the type is a bracket whose only item includes
/// another type, remembers the head as the head of the included type.
pub fn item_head(
    alloc: Global,
    types: &mut TypeStore,
    decls: &SoundEnvironment<'_>,
    heads: &mut Heads,
    number: usize,
) -> Result<HeadOf<usize>, Memory>
    requires number { number < length types.old }
    requires heads { AreHeads decls.now types.old heads.old }
    ensures ok { IfOk result (IsHeadOf decls.now types.new (type_at types.old number)) }
    ensures heads { OnOk result (AreHeads decls.now types.new heads.new) }
    ensures grown { Grows types.old types.new }
{
    let found = FoundHeads {
        by_position: false,
        met: &heads.met,
        heads: heads.heads.as_slice(),
    };
    let head = head_with(alloc, types, decls, &found, number)?;
    keep(alloc, types, decls, heads, number, &head)?;
    Ok(head)
}

/// If an item includes a type, remembers the head of the item as the head of the included type.
fn keep(
    alloc: Global,
    types: &TypeStore,
    decls: &SoundEnvironment<'_>,
    heads: &mut Heads,
    number: usize,
    head: &HeadOf<usize>,
) -> Result<(), Memory>
    requires number { number < length types.now }
    requires heads { AreHeads decls.now types.now heads.old }
    requires head { IsHeadOf decls.now types.now (type_at types.now number) head.now }
    ensures { OnOk result (AreHeads decls.now types.now heads.new) }
{
    let TypeNode::Including(whole, included) = types.node(number) else {
        return Ok(());
    };
    let TypeNode::Bracket = types.node(whole) else {
        return Ok(());
    };
    decls.holds();
    remember(alloc, types, decls, heads, included, head)
}

/// Remembers the tags of a type as the type's head.
fn remember(
    alloc: Global,
    types: &TypeStore,
    decls: &SoundEnvironment<'_>,
    heads: &mut Heads,
    number: usize,
    head: &HeadOf<usize>,
) -> Result<(), Memory>
    requires number { number < length types.now }
    requires heads { AreHeads decls.now types.now heads.old }
    requires tags { IsTagsHead decls.now types.now (type_at types.now number) head.now }
    ensures { OnOk result (AreHeads decls.now types.now heads.new) }
{
    let HeadOf::Variants(tags) = head else {
        return Ok(());
    };
    if heads.met.contains(&number) {
        return Ok(());
    }
    let copied = copied(alloc, tags.as_slice())?;
    heads.met.insert(number)?;
    heads.heads.push(HeadOf::Variants(List::of(copied)))?;
    Ok(())
}

/// Copies the tags.
fn copied(alloc: Global, tags: &[TagOf<usize>]) -> Result<Vec<TagOf<usize>>, Memory>
    ensures { IfOk result (λ v. v.items ≡ tags.now) }
{
    let mut found = Vec::with_capacity(alloc, tags.len())?;
    for tag in tags {
        found.push(TagOf {
            name: List::of(Vec::from_slice(alloc, tag.name.as_slice())?),
            argument: tag.argument,
        })?;
    }
    Ok(found)
}
