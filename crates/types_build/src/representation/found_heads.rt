//! Uses the heads of types that were found before.

ghost use Rattle.std.specs.Prelude.{ℕ, ◌≡◌, Some, map, slice_get, All};
ghost use Rattle.std.specs.Prelude.{IfSome, OnOk, option_map};
ghost use Rattle.types_spec.specs.declared.types.head.TagOf.{TagOf as Tag};
ghost use Rattle.types_spec.specs.declared.types.head.HeadOf.TheVariants as all_heads;
ghost use Rattle.types_spec.specs.types.Table.{tag_with_part};
ghost use Rattle.types_build.specs.representation.Tags.{tags_of_entries, with_tags};
ghost use Rattle.types_build.specs.representation.FoundHeads.{part_number, IsLocation};

use crate::representation::bracket::{Tags, add_tag};
use base_data::model::Memory;
use indexmap::IndexSet;
use std::alloc::Global;
use types_spec::types::head::{HeadOf, TagOf};

/// The heads of the first types of `met`, which contains type indices. If `by_position` is true, a
/// part of a head is a position in `met`. If `by_position` is false, a part of a head is a type
/// index.
#[derive(Clone, Copy)]
pub struct FoundHeads<'a> {
    pub by_position: bool,
    pub met: &'a IndexSet<usize>,
    pub heads: &'a [HeadOf<usize>],
}

/// Returns the tags of a type if the type's head was found and has at least twice as many tags as
/// `so_far`. Because of the factor of two, all tags that are added from found heads are at most
/// twice the final number of tags.
pub(crate) fn found_tags<'a>(
    found: &FoundHeads<'a>,
    number: usize,
    so_far: usize,
) -> Option<&'a [TagOf<usize>]>
    ensures { IfSome result
        (λ tags. (location : ℕ) × (slice_get found.now.met.now.keys location ≡ Some number)
        × (slice_get found.now.heads.now location ≡ Some (all_heads.Variants tags.now))) }
{
    let location = found.met.get_index_of(&number)?;
    if location >= found.heads.len() {
        return None;
    }
    match &found.heads[location] {
        HeadOf::Variants(tags) if so_far <= tags.len() / 2 => Some(tags.as_slice()),
        _ => None,
    }
}

/// Adds tags that were found before, with the type indices of their arguments.
pub(crate) fn add_found(
    alloc: Global,
    tags: &mut Tags,
    found: &FoundHeads<'_>,
    more: &[TagOf<usize>],
) -> Result<(), Memory>
    requires { All
        (λ (tag : Tag ℕ). IfSome tag.argument
        (IsLocation found.now.by_position found.now.met.now.keys)) more.now }
    ensures { OnOk result
        (tags_of_entries tags.new.entries
        ≡ with_tags (tags_of_entries tags.old.entries)
        (map (tag_with_part (part_number found.now.by_position found.now.met.now.keys)) more.now)) }
{
    for tag in more {
        let argument = number_at(found, tag.argument);
        add_tag(alloc, tags, tag.name.as_slice(), argument)?;
    }
    Ok(())
}

/// Returns the type index of a part, or `None` if there is no part.
fn number_at(found: &FoundHeads<'_>, part: Option<usize>) -> Option<usize>
    requires { IfSome part (IsLocation found.now.by_position found.now.met.now.keys) }
    ensures { result ≡ option_map (part_number found.now.by_position found.now.met.now.keys) part }
{
    match part {
        Some(location) => {
            if found.by_position {
                Some(found.met.as_slice()[location])
            } else {
                Some(location)
            }
        }
        None => None,
    }
}
