//! Finds tags of a bracket that have the same hash.

ghost use Rattle.std.specs.Prelude.{ℕ, ◌≡◌, ◌++◌, ◌⊎◌, List, IfOk, OnOk, MatchOption};
ghost use Rattle.types_spec.specs.declared.types.head.TagOf.{TagOf as Tag};
ghost use Rattle.types_resolve.specs.scope.Least.{earliest};
ghost use Rattle.types_wellformed.specs.brackets.TagTables.{AreTagNames, AreColliding};

use crate::brackets::sightings::{Sightings, add, empty, other};
use crate::brackets::tag_item::TagItem;
use base_data::model::Memory;
use std::alloc::Global;
use types_spec::tag_hash::hash;
use types_spec::types::head::TagOf;

/// The names of two tags with the same hash, and the first lexeme of the item with the second tag.
#[derive(Clone, Copy)]
pub struct Collision<'a> {
    pub position: usize,
    pub one: &'a [u8],
    pub other: &'a [u8],
}

ghost use Rattle.types_wellformed.specs.brackets.Collisions.{position_of, IsLeastCollision};
ghost use Rattle.types_wellformed.specs.brackets.Trees.{IsLeastHashOf};

/// Adds the names of `tags` to the table of names by hash.
fn add_tag_names<'a>(
    table: &mut Sightings<i64, &'a [u8]>,
    tags: &'a [TagOf<usize>],
) -> Result<(), Memory>
    ensures { OnOk result
        ((seen : List (Tag ℕ)) → AreTagNames seen table.old
        → AreTagNames (seen ++ tags.now) table.new) }
{
    for tag in tags {
        let name = tag.name.as_slice();
        add(table, hash(name), name)?;
    }
    Ok(())
}

/// Finds a tag whose hash was seen with another name. Returns the collision of the two names at
/// `position`, or `None` if no hash was seen with another name.
fn find_collision<'a>(
    table: &Sightings<i64, &'a [u8]>,
    tags: &'a [TagOf<usize>],
    position: usize,
) -> Option<Collision<'a>>
    ensures { (seen : List (Tag ℕ)) → AreTagNames seen table.now
        → MatchOption result ((one other : List ℕ) → ¬ AreColliding seen tags.now one other)
        (λ c. (c.position ≡ position) × AreColliding seen tags.now c.one.now c.other.now) }
{
    for tag in tags {
        let name = tag.name.as_slice();
        if let Some(one) = other(table, hash(name), name) {
            return Some(Collision {
                position,
                one,
                other: name,
            });
        }
    }
    None
}

/// Returns the collision with the lesser lexeme among two optional collisions.
pub fn nearer<'a>(
    best: Option<Collision<'a>>,
    found: Option<Collision<'a>>,
) -> Option<Collision<'a>>
    ensures position { position_of result
        ≡ earliest (position_of best.entry) (position_of found.entry) }
    ensures either { (result ≡ best.entry) ⊎ (result ≡ found.entry) }
{
    match (best, found) {
        (None, _) => found,
        (Some(_), None) => best,
        (Some(j), Some(k)) => { if k.position < j.position { found } else { best } }
    }
}

/// Returns the least lexeme of an item with a tag whose hash another tag has, and the names of two
/// tags with the same hash. The other tag belongs to the same item or to an earlier item. Returns
/// `None` if no two tags have the same hash. The items may have their lexemes in any order.
pub fn least_collision<'a>(
    alloc: Global,
    items: &'a [TagItem],
) -> Result<Option<Collision<'a>>, Memory>
    ensures least { IfOk result (IsLeastCollision items.now) }

    // The result also holds for every list of written items that `items` represents by the numbers
    // of types.
    ensures of_types { IfOk result (IsLeastHashOf items.now) }
{
    let mut table = empty(alloc);
    let mut best = None;
    for item in items {
        let tags = item.tags.as_slice();
        add_tag_names(&mut table, tags)?;
        best = nearer(best, find_collision(&table, tags, item.position));
    }
    Ok(best)
}
