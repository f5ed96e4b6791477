//! Computes the head of a type, by type index.

ghost use Rattle.std.specs.Prelude.{◌<◌, length, IfOk};
ghost use Rattle.types_spec.specs.types.TypeNodes.{type_at};
ghost use Rattle.types_table.specs.store.Held.{Grows};
ghost use Rattle.types_build.specs.representation.Tags.{IsHeadOf};
ghost use Rattle.types_build.specs.representation.FoundHeads.{AreFound};

use crate::representation::bracket::bracket_head;
use crate::representation::found_heads::FoundHeads;
use crate::representation::plain_heads::plain;
use crate::representation::replaced::expanded;
use crate::representation::stored::Stored;
use base_data::model::Memory;
use indexmap::IndexSet;
use std::alloc::Global;
use types_resolve::scope::SoundEnvironment;
use types_spec::types::head::HeadOf;
use types_table::store::TypeStore;

/// Returns the head of a type. Abbreviations at the head are expanded, and tags replace included
/// types. May append types to `types`, even if the result is `Memory`.
pub fn head_of(
    alloc: Global,
    types: &mut TypeStore,
    decls: &SoundEnvironment<'_>,
    number: usize,
) -> Result<HeadOf<usize>, Memory>
    requires number { number < length types.old }
    ensures ok { IfOk result (IsHeadOf decls.now types.new (type_at types.old number)) }
    ensures grown { Grows types.old types.new }
{
    let met = IndexSet::new(alloc);
    let none = FoundHeads {
        by_position: true,
        met: &met,
        heads: &[],
    };
    head_with(alloc, types, decls, &none, number)
}

/// Returns the head of a type like `head_of`, and uses heads that were found before.
pub(crate) fn head_with(
    alloc: Global,
    types: &mut TypeStore,
    decls: &SoundEnvironment<'_>,
    found: &FoundHeads<'_>,
    number: usize,
) -> Result<HeadOf<usize>, Memory>
    requires number { number < length types.old }
    requires found { AreFound decls.now types.old found.now.by_position found.now.met.now.keys
        found.now.heads.now }
    ensures ok { IfOk result (IsHeadOf decls.now types.new (type_at types.old number)) }
    ensures grown { Grows types.old types.new }
{
    decls.holds();
    let at = expanded(alloc, types, decls, number)?;
    match plain(alloc, &Stored { types, number: at })? {
        Some(head) => Ok(head),
        None => bracket_head(alloc, types, decls, found, at),
    }
}
