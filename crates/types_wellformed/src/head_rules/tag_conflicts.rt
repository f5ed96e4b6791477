//! Finds conflicts between the tags of one bracket, over all brackets of a text.

ghost use Rattle.std.specs.Prelude.{◌≡◌, IfOk};
ghost use Rattle.types_resolve.specs.scope.Least.{IsLeast};
ghost use Rattle.types_wellformed.specs.brackets.TagItems.{ConflictsIn};
ghost use Rattle.types_wellformed.specs.head_rules.Broken.{IsFirstOfHeads};
ghost use Rattle.types_wellformed.specs.head_rules.Rules.{SomeBreaks, CollideAmong, IsLeastAmong};
ghost use Rattle.types_wellformed.specs.head_rules.Rules.{TagsBreak};

use crate::brackets::{Collision, TagItem, least_collision, least_conflict, nearer};
use crate::head_rules::broken::HeadBreak;
use base_data::model::Memory;
use base_data::model::list::List;
use base_data::text::copied;
use std::alloc::Global;
use types_resolve::scope::earliest;

/// Returns the least lexeme of a tag that occurs with two arguments in one bracket, or `None` if no
/// tag occurs with two arguments.
fn least_tag_clash(alloc: Global, brackets: &[List<TagItem>]) -> Result<Option<usize>, Memory>
    ensures { IfOk result (IsLeast (SomeBreaks brackets.now ConflictsIn)) }
{
    let mut best = None;
    for items in brackets {
        best = earliest(best, least_conflict(alloc, items.as_slice())?);
    }
    Ok(best)
}

/// Returns the least lexeme of two tags of one bracket with the same hash, and the names of the
/// tags. Returns `None` if no two tags of a bracket have the same hash.
fn least_hash_clash<'a>(
    alloc: Global,
    brackets: &'a [List<TagItem>],
) -> Result<Option<Collision<'a>>, Memory>
    ensures { IfOk result (IsLeastAmong brackets.now) }
{
    let mut best = None;
    for items in brackets {
        best = nearer(best, least_collision(alloc, items.as_slice())?);
    }
    Ok(best)
}

/// Returns the violation for two tags with the same hash.
fn hash_break(alloc: Global, found: Collision<'_>) -> Result<HeadBreak, Memory>
    ensures { IfOk result
        (λ b. b
        ≡ HeadBreak.HashClash found.entry.position found.entry.one.now found.entry.other.now) }
{
    let one = copied(alloc, found.one)?;
    let other = copied(alloc, found.other)?;
    Ok(HeadBreak::HashClash(found.position, one, other))
}

/// Returns the first rule on tags that a bracket breaks, at the least lexeme, or `None` if no
/// bracket breaks a rule on tags.
pub fn first_of_tags(alloc: Global, tagged: &[List<TagItem>]) -> Result<Option<HeadBreak>, Memory>
    ensures { IfOk result (IsFirstOfHeads (TagsBreak tagged.now) (CollideAmong tagged.now)) }
{
    if let Some(position) = least_tag_clash(alloc, tagged)? {
        return Ok(Some(HeadBreak::TagClash(position)));
    }
    match least_hash_clash(alloc, tagged)? {
        Some(found) => Ok(Some(hash_break(alloc, found)?)),
        None => Ok(None),
    }
}
