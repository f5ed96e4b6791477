//! Finds tags of a bracket that occur with two different arguments.

ghost use Rattle.std.specs.Prelude.{ℕ, ◌++◌, ◌↔◌, List, IfOk, OnOk, IsTrue};
ghost use Rattle.types_spec.specs.declared.types.head.TagOf.{TagOf as Tag};
ghost use Rattle.types_resolve.specs.scope.Least.{IsLeast};
ghost use Rattle.types_wellformed.specs.brackets.TagItems.{ConflictsIn};
ghost use Rattle.types_wellformed.specs.brackets.TagTables.{AreArguments, SomeConflicts};
ghost use Rattle.types_wellformed.specs.brackets.Trees.{IsLeastConflictOf};

use crate::brackets::sightings::{Sightings, add, empty, other};
use crate::brackets::tag_item::TagItem;
use base_data::model::Memory;
use std::alloc::Global;
use types_resolve::scope::{earliest, position_if};
use types_spec::types::head::TagOf;

/// Adds the arguments of `tags` to the table of arguments by name.
fn add_arguments<'a>(
    table: &mut Sightings<&'a [u8], Option<usize>>,
    tags: &'a [TagOf<usize>],
) -> Result<(), Memory>
    ensures { OnOk result
        ((seen : List (Tag ℕ)) → AreArguments seen table.old
        → AreArguments (seen ++ tags.now) table.new) }
{
    for tag in tags {
        add(table, tag.name.as_slice(), tag.argument)?;
    }
    Ok(())
}

/// Returns true if one of `tags` was seen with another argument.
fn conflicts<'a>(table: &Sightings<&'a [u8], Option<usize>>, tags: &'a [TagOf<usize>]) -> bool
    ensures { (seen : List (Tag ℕ)) → AreArguments seen table.now → IsTrue result
        ↔ SomeConflicts seen tags.now }
{
    for tag in tags {
        if other(table, tag.name.as_slice(), tag.argument).is_some() {
            return true;
        }
    }
    false
}

/// Returns the least lexeme of an item with a tag that an earlier item has with another argument.
/// Returns `None` if no tag has two arguments. The items may have their lexemes in any order.
pub fn least_conflict(alloc: Global, items: &[TagItem]) -> Result<Option<usize>, Memory>
    ensures least { IfOk result (IsLeast (ConflictsIn items.now)) }

    // The result also holds for every list of written items that `items` represents by the numbers
    // of types.
    ensures of_types { IfOk result (IsLeastConflictOf items.now) }
{
    let mut table = empty(alloc);
    let mut best = None;
    for item in items {
        let tags = item.tags.as_slice();
        best = earliest(best, position_if(conflicts(&table, tags), item.position));
        add_arguments(&mut table, tags)?;
    }
    Ok(best)
}
