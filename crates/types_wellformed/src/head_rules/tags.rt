//! Computes the tags that the items of brackets contribute.

ghost use Rattle.std.specs.Prelude.{◌≡◌, map, IfOk, OnOk};
ghost use Rattle.types_table.specs.store.Held.{Grows};
ghost use Rattle.types_build.specs.representation.Heads.{AreHeads};
ghost use Rattle.types_wellformed.specs.brackets.Trees.{typed_item, written_item};
ghost use Rattle.types_wellformed.specs.head_rules.Rules.{AreWithin, AreAllWithin, AreTagged};
ghost use Rattle.types_wellformed.specs.head_rules.Rules.{items_at};
ghost use Rattle.types_wellformed.specs.head_rules.Rules.{brackets_at, tags_of_head};

use crate::brackets::TagItem;
use crate::head_rules::item::NumberedItem;
use base_data::model::Memory;
use base_data::model::list::List;
use std::alloc::Global;
use types_build::representation::{Heads, item_head, no_heads};
use types_resolve::scope::SoundEnvironment;
use types_spec::types::head::{HeadOf, TagOf};
use types_table::store::TypeStore;

/// Returns the tags of a head. A head that is not a polymorphic variant has no tags.
fn tags_in(alloc: Global, head: HeadOf<usize>) -> List<TagOf<usize>>
    ensures { result ≡ tags_of_head head }
{
    match head {
        HeadOf::Variants(tags) => tags,
        _ => List::new(alloc),
    }
}

/// Returns the items of a bracket, each with the tags that the item contributes.
fn tagged_items(
    alloc: Global,
    types: &mut TypeStore,
    decls: &SoundEnvironment<'_>,
    heads: &mut Heads,
    items: &[NumberedItem],
) -> Result<List<TagItem>, Memory>
    requires within { AreWithin types.old items.now }
    requires heads { AreHeads decls.now types.old heads.old }
    ensures ok { IfOk result
        (λ all. map (typed_item types.new) all
        ≡ map (written_item decls.now) (items_at types.old items.now)) }
    ensures heads { OnOk result (AreHeads decls.now types.new heads.new) }
    ensures grown { Grows types.old types.new }
{
    let mut all = List::new(alloc);
    for item in items {
        let head = item_head(alloc, types, decls, heads, item.number)?;
        all.push(TagItem {
            position: item.position,
            tags: tags_in(alloc, head),
        })?;
    }
    Ok(all)
}

/// Returns the items of several brackets, each with the tags that the item contributes.
fn all_tagged(
    alloc: Global,
    types: &mut TypeStore,
    decls: &SoundEnvironment<'_>,
    heads: &mut Heads,
    brackets: &[List<NumberedItem>],
) -> Result<List<List<TagItem>>, Memory>
    requires within { AreAllWithin types.old brackets.now }
    requires heads { AreHeads decls.now types.old heads.old }
    ensures ok { IfOk result
        (λ all. map (map (typed_item types.new)) all
        ≡ map (map (written_item decls.now)) (brackets_at types.old brackets.now)) }
    ensures grown { Grows types.old types.new }
{
    let mut all = List::new(alloc);
    for items in brackets {
        let tagged = tagged_items(alloc, types, decls, heads, items.as_slice())?;
        all.push(tagged)?;
    }
    Ok(all)
}

/// Returns the items of several brackets, each with the tags that the item contributes. The
/// arguments of the tags are the numbers of distinct types.
pub fn tagged_brackets(
    alloc: Global,
    types: &mut TypeStore,
    decls: &SoundEnvironment<'_>,
    brackets: &[List<NumberedItem>],
) -> Result<List<List<TagItem>>, Memory>
    requires within { AreAllWithin types.old brackets.now }
    ensures ok { IfOk result
        (λ tagged. AreTagged types.new decls.now tagged (brackets_at types.old brackets.now)) }
    ensures grown { Grows types.old types.new }
{
    let mut heads = no_heads(alloc);
    let tagged = all_tagged(alloc, types, decls, &mut heads, brackets)?;
    // The contract of `len` states that the types of the store are distinct.
    let _ = types.len();
    Ok(tagged)
}
