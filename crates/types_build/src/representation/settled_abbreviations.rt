//! Finds settled abbreviations. An abbreviation is settled if all its tags are already gathered,
//! for any arguments.

ghost use Rattle.std.specs.Prelude.{◌<◌, ◌≤◌, ◌+◌, None, List, length, All, IfOk, OnOk, IsTrue};
ghost use Rattle.types_spec.specs.declared.types.decl.Decl.{Decl as Declaration};
ghost use Rattle.types_spec.specs.declared.types.head.TagOf.{TagOf as Tag};
ghost use Rattle.types_spec.specs.types.Ty.{Ty};
ghost use Rattle.types_spec.specs.types.TypeNodes.{type_at};
ghost use Rattle.types_spec.specs.types.WellFormed.{AreSound};
ghost use Rattle.types_table.specs.store.Held.{Grows};
ghost use Rattle.types_build.specs.representation.Tags.{tags_at, tags_of_entries};
ghost use Rattle.types_build.specs.representation.AbbreviationWay.{AreKnown};
ghost use Rattle.types_build.specs.representation.Work.{work};
ghost use Rattle.types_build.specs.representation.RepresentationSteps.{AreSettled, IsSettledAt};
ghost use Rattle.types_build.specs.representation.RepresentationSteps.{IsSure};
ghost use Rattle.types_build.specs.representation.RepresentationSteps.{EachBringsNone};
ghost use Rattle.types_build.specs.representation.RepresentationSteps.{EachItemBringsNone};
ghost use Rattle.types_build.specs.representation.RepresentationSteps.{AreEachThere};
ghost use Rattle.types_build.specs.representation.RepresentationSteps.{numbers_work, item_work};

use crate::representation::bracket::{Tags, before_item, has_bracket};
use crate::representation::known_abbreviations::{KnownAbbreviations, abbreviation, known_end};
use crate::representation::stored::Stored;
use base_data::model::Memory;
use indexmap::IndexSet;
use std::alloc::Global;
use types_resolve::scope::SoundEnvironment;
use types_spec::types::decl::Body;
use types_table::store::{TypeNode, TypeStore};

/// Declaration indices of the settled abbreviations. All tags of a settled abbreviation are already
/// gathered, for any arguments.
pub(crate) type SettledAbbreviations = IndexSet<usize>;

/// Returns true if `decl` exists and is a settled abbreviation.
pub(crate) fn is_settled(settled: &SettledAbbreviations, decl: Option<usize>) -> bool
    ensures { IsTrue result → (decls : List Declaration) (tags : List (Tag Ty))
        → AreSettled decls tags settled.now.keys → IsSettledAt decls tags decl }
{
    match decl {
        Some(decl) => settled.contains(&decl),
        None => false,
    }
}

/// Settles an abbreviation if all its tags are gathered for any arguments. An abbreviation without
/// parameters is always settled, because the step of the abbreviation comes after the tags of one
/// of its types are gathered.
pub(crate) fn settle(
    alloc: Global,
    types: &mut TypeStore,
    decls: &SoundEnvironment<'_>,
    known: &KnownAbbreviations,
    tags: &Tags,
    settled: &mut SettledAbbreviations,
    decl: usize,
) -> Result<(), Memory>
    requires decl { decl < length decls.now }
    requires known { AreKnown decls.now None known.now }
    ensures settled { let there = tags_at types.new (tags_of_entries tags.now.entries) in
        OnOk result
        (IsSure decls.now there decl → AreSettled decls.now there settled.old.keys
        → AreSettled decls.now there settled.new.keys) }
    ensures grown { Grows types.old types.new }
{
    if decls.at(decl).parameters.as_slice().is_empty() {
        settled.insert(decl)?;
        return Ok(());
    }
    settle_if_there(alloc, types, decls, known, tags, settled, decl)
}

/// Settles an abbreviation if all its tags are gathered for any arguments. Takes one step for each
/// node of the abbreviated type.
fn settle_if_there(
    alloc: Global,
    types: &mut TypeStore,
    decls: &SoundEnvironment<'_>,
    known: &KnownAbbreviations,
    tags: &Tags,
    settled: &mut SettledAbbreviations,
    decl: usize,
) -> Result<(), Memory>
    requires decl { decl < length decls.now }
    requires known { AreKnown decls.now None known.now }
    ensures settled { let there = tags_at types.new (tags_of_entries tags.now.entries) in
        OnOk result
        (AreSettled decls.now there settled.old.keys
        → AreSettled decls.now there settled.new.keys) }
    ensures grown { Grows types.old types.new }
{
    let Body::Abbreviation(body) = &decls.at(decl).body else {
        return Ok(());
    };
    decls.holds();
    let number = types.add(alloc, body)?;
    if are_there(
        alloc,
        &Stored { types, number },
        decls,
        known,
        tags,
        settled,
    )? {
        settled.insert(decl)?;
    }
    Ok(())
}

/// Returns true if all tags of a type are gathered, whatever types replace the type's variables.
fn are_there(
    alloc: Global,
    t: &Stored<'_>,
    decls: &SoundEnvironment<'_>,
    known: &KnownAbbreviations,
    tags: &Tags,
    settled: &SettledAbbreviations,
) -> Result<bool, Memory>
    requires known { AreKnown decls.now None known.now }
    ensures { let there = tags_at t.now.types.now (tags_of_entries tags.now.entries) in
        IfOk result
        (λ are. IsTrue are → AreSettled decls.now there settled.now.keys
        → EachBringsNone decls.now there (type_at t.now.types.now t.now.number)) }
{
    let types = t.types;
    let mut waiting = vec![in alloc; t.number]?;
    'next: while let Some(next) = waiting.pop() {
        if !is_there(
            alloc,
            &Stored {
                types,
                number: next,
            },
            decls,
            known,
            tags,
            settled,
            &mut waiting,
        )? {
            return Ok(false);
        }
    }
    Ok(true)
}

/// Returns true if all tags of a type are gathered, provided that the tags of the pending types are
/// gathered.
fn is_there(
    alloc: Global,
    t: &Stored<'_>,
    decls: &SoundEnvironment<'_>,
    known: &KnownAbbreviations,
    tags: &Tags,
    settled: &SettledAbbreviations,
    waiting: &mut Vec<usize>,
) -> Result<bool, Memory>
    requires known { AreKnown decls.now None known.now }
    requires within { All (λ n. n < length t.now.types.now) waiting.old.items }
    ensures there { let there = tags_at t.now.types.now (tags_of_entries tags.now.entries) in
        IfOk result
        (λ is. IsTrue is → AreSettled decls.now there settled.now.keys
        → AreEachThere decls.now t.now.types.now there waiting.new.items
        → AreEachThere decls.now t.now.types.now there waiting.old.items
        × EachBringsNone decls.now there (type_at t.now.types.now t.now.number)) }
    ensures less { IfOk result
        (λ is. IsTrue is
        → numbers_work decls.now t.now.types.now waiting.new.items
        ≤ numbers_work decls.now t.now.types.now waiting.old.items
        + work decls.now (type_at t.now.types.now t.now.number)) }
    ensures within { OnOk result (All (λ n. n < length t.now.types.now) waiting.new.items) }
{
    decls.holds();
    let types = t.types;
    let number = known_end(alloc, t, decls, known)?;
    let end = Stored { types, number };
    match abbreviation(&end, decls) {
        Some(decl) => Ok(settled.contains(&decl)),
        None => items_are_there(&end, tags, waiting),
    }
}

/// Returns true if the type is a bracket and all its items are gathered, provided that the tags of
/// the pending types are gathered.
fn items_are_there(t: &Stored<'_>, tags: &Tags, waiting: &mut Vec<usize>) -> Result<bool, Memory>
    requires within { All (λ n. n < length t.now.types.now) waiting.old.items }
    ensures there { let there = tags_at t.now.types.now (tags_of_entries tags.now.entries) in
        IfOk result
        (λ are. IsTrue are → (decls : List Declaration) → AreSound decls
        → AreEachThere decls t.now.types.now there waiting.new.items
        → AreEachThere decls t.now.types.now there waiting.old.items
        × EachBringsNone decls there (type_at t.now.types.now t.now.number)) }
    ensures less { IfOk result
        (λ are. IsTrue are → (decls : List Declaration) → AreSound decls
        → numbers_work decls t.now.types.now waiting.new.items
        ≤ numbers_work decls t.now.types.now waiting.old.items
        + work decls (type_at t.now.types.now t.now.number)) }
    ensures within { OnOk result (All (λ n. n < length t.now.types.now) waiting.new.items) }
{
    let types = t.types;
    let mut at = t.number;
    'whole: while let Some(whole) = before_item(&Stored { types, number: at }) {
        if !item_is_there(types, tags, at, waiting)? {
            return Ok(false);
        }
        at = whole;
    }
    Ok(has_bracket(&Stored { types, number: at }))
}

/// Returns true if the tag of an item is gathered. If the item includes a type, pushes the included
/// type and returns true.
fn item_is_there(
    types: &TypeStore,
    tags: &Tags,
    item: usize,
    waiting: &mut Vec<usize>,
) -> Result<bool, Memory>
    requires item { item < length types.now }
    requires within { All (λ n. n < length types.now) waiting.old.items }
    ensures there { let there = tags_at types.now (tags_of_entries tags.now.entries) in
        IfOk result
        (λ is. IsTrue is → (decls : List Declaration)
        → AreEachThere decls types.now there waiting.new.items
        → AreEachThere decls types.now there waiting.old.items
        × EachItemBringsNone decls there (type_at types.now item)) }
    ensures less { IfOk result
        (λ is. IsTrue is → (decls : List Declaration)
        → numbers_work decls types.now waiting.new.items
        ≤ numbers_work decls types.now waiting.old.items
        + item_work (work decls) (type_at types.now item)) }
    ensures within { OnOk result (All (λ n. n < length types.now) waiting.new.items) }
{
    match types.node(item) {
        TypeNode::Tag(_, name) => Ok(tags.contains_key(name)),
        TypeNode::TagOf(_, name, _) => Ok(tags.contains_key(name)),
        TypeNode::Including(_, included) => {
            waiting.push(included)?;
            Ok(true)
        }
        _ => Ok(false),
    }
}
