//! Computes the head of a bracket (a polymorphic variant type): the tags of the bracket, and the
//! tags of the types that the bracket includes.

ghost use Rattle.std.specs.Prelude.{ℕ, ◌≡◌, ◌<◌, ◌≤◌, ◌+◌, suc, ◌∷◌, [], None, List, length};
ghost use Rattle.std.specs.Prelude.{reverse, IfOk, IfSome, OnOk, option_map};
ghost use Rattle.types_spec.specs.declared.types.decl.Decl.{Decl as Declaration};
ghost use Rattle.types_spec.specs.declared.types.head.TagOf.{TagOf as Tag};
ghost use Rattle.types_spec.specs.types.Ty.{Ty};
ghost use Rattle.types_spec.specs.types.TypeNodes.{type_at};
ghost use Rattle.types_spec.specs.types.Declarations.{unfolded};
ghost use Rattle.types_spec.specs.types.Head.{head, joined, tags_in};
ghost use Rattle.types_spec.specs.types.WellFormed.{AreSound};
ghost use Rattle.types_table.specs.store.Held.{Grows};
ghost use Rattle.types_build.specs.representation.PlainHeads.{IsBracketed};
ghost use Rattle.types_build.specs.declared.representation.bracket.BracketStep.TheVariants as steps;
ghost use Rattle.types_build.specs.representation.Tags.{has_bracket, before_item, items};
ghost use Rattle.types_build.specs.representation.Tags.{with_items, with_tag};
ghost use Rattle.types_build.specs.representation.Tags.{tags_of_entries, IsHeadOf};
ghost use Rattle.types_build.specs.representation.FoundHeads.{AreFound};
ghost use Rattle.types_build.specs.representation.AbbreviationWay.{AreKnown};
ghost use Rattle.types_build.specs.representation.Work.{work, written_work};
ghost use Rattle.types_build.specs.representation.RepresentationSteps.{AreLeft, AreGathered};
ghost use Rattle.types_build.specs.representation.RepresentationSteps.{AreAll};
ghost use Rattle.types_build.specs.representation.RepresentationSteps.{IsStepWithin, IsSure};
ghost use Rattle.types_build.specs.representation.RepresentationSteps.{steps_work};

use crate::representation::found_heads::{FoundHeads, add_found, found_tags};
use crate::representation::known_abbreviations::{KnownAbbreviations, abbreviation, none_known};
use crate::representation::replaced::nearer_from;
use crate::representation::settled_abbreviations::{SettledAbbreviations, is_settled, settle};
use crate::representation::stored::Stored;
use base_data::model::Memory;
use base_data::model::list::List;
use indexmap::{IndexMap, IndexSet};
use std::alloc::Global;
use types_resolve::scope::SoundEnvironment;
use types_spec::types::head::{HeadOf, TagOf};
use types_table::store::{TypeNode, TypeStore};

/// Tags by name, in insertion order. If a tag has an argument, its entry is the index of the
/// argument type.
pub(crate) type Tags = IndexMap<Vec<u8>, Option<usize>>;

/// A pending step. `Item` is an item of a bracket, given by the index of the type that ends with
/// the item. `Included` is an included type. `Settle` is the declaration index of an abbreviation
/// whose tags have been gathered.
#[derive(Clone, Copy)]
pub(crate) enum BracketStep {
    Item(usize),
    Included(usize),
    Settle(usize),
}

/// Returns the head of a bracket with or without items. Takes one step for each item, and one for
/// each item of an included type. An included abbreviation is visited once, whatever its arguments.
/// If the head of an included type was found before, takes one step for each tag of the head. May
/// append types to `types`, even if the result is `Memory`.
pub fn bracket_head(
    alloc: Global,
    types: &mut TypeStore,
    decls: &SoundEnvironment<'_>,
    found: &FoundHeads<'_>,
    number: usize,
) -> Result<HeadOf<usize>, Memory>
    requires number { number < length types.old }
    requires found { AreFound decls.now types.old found.now.by_position found.now.met.now.keys
        found.now.heads.now }
    requires bracketed { IsBracketed (type_at types.old number) }
    ensures ok { IfOk result (IsHeadOf decls.now types.new (type_at types.old number)) }
    ensures grown { Grows types.old types.new }
{
    decls.holds();
    if !has_bracket(&Stored { types, number }) {
        return Ok(HeadOf::Absent);
    }
    let mut waiting = Vec::new(alloc);
    push_items(&Stored { types, number }, &mut waiting)?;
    let mut tags: Tags = IndexMap::new(alloc);
    gather_all(alloc, types, decls, found, &mut tags, &mut waiting)?;
    Ok(HeadOf::Variants(List::of(listed(alloc, tags)?)))
}

/// Takes all pending steps, until no step is left.
fn gather_all(
    alloc: Global,
    types: &mut TypeStore,
    decls: &SoundEnvironment<'_>,
    found: &FoundHeads<'_>,
    tags: &mut Tags,
    waiting: &mut Vec<BracketStep>,
) -> Result<(), Memory>
    requires found { AreFound decls.now types.old found.now.by_position found.now.met.now.keys
        found.now.heads.now }
    requires gathered { (all : List (Tag Ty))
        × AreGathered decls.now types.old (tags_of_entries tags.old.entries) []
        (reverse waiting.old.items) all }
    ensures gathered { OnOk result
        ((all : List (Tag Ty))
        → AreGathered decls.now types.old (tags_of_entries tags.old.entries) []
        (reverse waiting.old.items) all
        → AreAll types.new (tags_of_entries tags.new.entries) all) }
    ensures grown { Grows types.old types.new }
{
    let mut settled: SettledAbbreviations = IndexSet::new(alloc);
    let mut known = none_known(alloc);
    'step: while let Some(step) = waiting.pop() {
        gather(
            alloc,
            types,
            decls,
            found,
            step,
            &mut known,
            tags,
            &mut settled,
            waiting,
        )?;
    }
    Ok(())
}

/// Takes the given step of gathering the tags of a bracket.
fn gather(
    alloc: Global,
    types: &mut TypeStore,
    decls: &SoundEnvironment<'_>,
    found: &FoundHeads<'_>,
    step: BracketStep,
    known: &mut KnownAbbreviations,
    tags: &mut Tags,
    settled: &mut SettledAbbreviations,
    waiting: &mut Vec<BracketStep>,
) -> Result<(), Memory>
    requires step { IsStepWithin decls.now types.old step }
    requires found { AreFound decls.now types.old found.now.by_position found.now.met.now.keys
        found.now.heads.now }
    requires known { AreKnown decls.now None known.old }
    ensures gathered { OnOk result
        ((all : List (Tag Ty))
        → AreGathered decls.now types.old (tags_of_entries tags.old.entries) settled.old.keys
        (step ∷ reverse waiting.old.items) all
        → AreGathered decls.now types.new (tags_of_entries tags.new.entries) settled.new.keys
        (reverse waiting.new.items) all) }
    ensures less { OnOk result
        ((all : List (Tag Ty))
        → AreGathered decls.now types.old (tags_of_entries tags.old.entries) settled.old.keys
        (step ∷ reverse waiting.old.items) all
        → steps_work decls.now types.new (reverse waiting.new.items)
        < steps_work decls.now types.old (step ∷ reverse waiting.old.items)) }
    ensures known { OnOk result (AreKnown decls.now None known.new) }
    ensures grown { Grows types.old types.new }
{
    match step {
        BracketStep::Item(item) => gather_item(alloc, types, item, tags, waiting),
        BracketStep::Included(included) => match found_tags(found, included, tags.len()) {
            Some(more) => add_found(alloc, tags, found, more),
            None => include(alloc, types, decls, known, settled, included, waiting),
        },
        BracketStep::Settle(decl) => settle(alloc, types, decls, known, tags, settled, decl),
    }
}

/// Adds the tag of an item, or pushes the type that the item includes.
fn gather_item(
    alloc: Global,
    types: &TypeStore,
    item: usize,
    tags: &mut Tags,
    waiting: &mut Vec<BracketStep>,
) -> Result<(), Memory>
    requires { item < length types.now }
    ensures gathered { OnOk result
        ((decls : List Declaration) (settled : List ℕ) (all : List (Tag Ty))
        → AreGathered decls types.now (tags_of_entries tags.old.entries) settled
        (steps.Item item ∷ reverse waiting.old.items) all
        → AreGathered decls types.now (tags_of_entries tags.new.entries) settled
        (reverse waiting.new.items) all) }
    ensures less { OnOk result
        ((decls : List Declaration)
        → steps_work decls types.now (reverse waiting.new.items)
        < steps_work decls types.now (steps.Item item ∷ reverse waiting.old.items)) }
{
    match types.node(item) {
        TypeNode::Tag(_, name) => add_tag(alloc, tags, name, None),
        TypeNode::TagOf(_, name, argument) => add_tag(alloc, tags, name, Some(argument)),
        TypeNode::Including(_, included) => {
            waiting.push(BracketStep::Included(included))?;
            Ok(())
        }
        _ => Ok(()),
    }
}

/// Pushes the items of an included type. If an abbreviation is at the head of the included type,
/// pushes the type after expansions at the head instead. If the abbreviation is settled, pushes
/// nothing.
fn include(
    alloc: Global,
    types: &mut TypeStore,
    decls: &SoundEnvironment<'_>,
    known: &mut KnownAbbreviations,
    settled: &SettledAbbreviations,
    included: usize,
    waiting: &mut Vec<BracketStep>,
) -> Result<(), Memory>
    requires included { included < length types.old }
    requires known { AreKnown decls.now None known.old }
    ensures gathered { OnOk result
        ((found : List (Tag ℕ)) (all : List (Tag Ty))
        → AreGathered decls.now types.old found settled.now.keys
        (steps.Included included ∷ reverse waiting.old.items) all
        → AreGathered decls.now types.new found settled.now.keys (reverse waiting.new.items)
        all) }
    ensures less { OnOk result
        ((found : List (Tag ℕ)) (all : List (Tag Ty))
        → AreGathered decls.now types.old found settled.now.keys
        (steps.Included included ∷ reverse waiting.old.items) all
        → steps_work decls.now types.new (reverse waiting.new.items)
        < steps_work decls.now types.old
        (steps.Included included ∷ reverse waiting.old.items)) }
    ensures known { OnOk result (AreKnown decls.now None known.new) }
    ensures grown { Grows types.old types.new }
{
    decls.holds();
    let decl = abbreviation(
        &Stored {
            types,
            number: included,
        },
        decls,
    );
    if is_settled(settled, decl) {
        return Ok(());
    }
    match nearer_from(alloc, types, decls, None, known, included, decl)? {
        Some(next) => push_next(decl, next, waiting),
        None => write_items(types, included, waiting),
    }
}

/// Pushes the type after an expansion. Below the type, pushes the step that settles the expanded
/// abbreviation.
fn push_next(decl: Option<usize>, next: usize, waiting: &mut Vec<BracketStep>) -> Result<(), Memory>
    ensures left { OnOk result
        ((decls : List Declaration) (types : List Ty) (tags all : List (Tag Ty))
        → IfSome decl (λ d. d < length decls)
        → IfSome decl (IsSure decls (joined tags (tags_in (head decls (type_at types next)))))
        → AreLeft decls types tags (steps.Included next ∷ reverse waiting.old.items) all
        → AreLeft decls types tags (reverse waiting.new.items) all) }
    ensures work { OnOk result
        ((decls : List Declaration) (types : List Ty)
        → steps_work decls types (reverse waiting.new.items)
        ≤ steps_work decls types (reverse waiting.old.items)
        + suc (suc (work decls (type_at types next)))) }
{
    match decl {
        Some(decl) => {
            waiting.push(BracketStep::Settle(decl))?;
            waiting.push(BracketStep::Included(next))?;
            Ok(())
        }
        None => {
            waiting.push(BracketStep::Included(next))?;
            Ok(())
        }
    }
}

/// Pushes the items of an included bracket.
fn write_items(
    types: &TypeStore,
    bracket: usize,
    waiting: &mut Vec<BracketStep>,
) -> Result<(), Memory>
    requires { bracket < length types.now }
    ensures left { OnOk result
        ((decls : List Declaration) (tags all : List (Tag Ty)) → AreSound decls
        → unfolded decls (type_at types.now bracket) ≡ None
        → AreLeft decls types.now tags (steps.Included bracket ∷ reverse waiting.old.items)
        all
        → AreLeft decls types.now tags (reverse waiting.new.items) all) }
    ensures work { OnOk result
        ((decls : List Declaration) → AreSound decls
        → unfolded decls (type_at types.now bracket) ≡ None
        → steps_work decls types.now (reverse waiting.new.items)
        ≤ steps_work decls types.now (reverse waiting.old.items)
        + work decls (type_at types.now bracket)) }
{
    let t = Stored {
        types,
        number: bracket,
    };
    if !has_bracket(&t) {
        return Ok(());
    }
    push_items(&t, waiting)
}

/// Adds a tag, unless a tag with the same name exists.
pub(crate) fn add_tag(
    alloc: Global,
    tags: &mut Tags,
    name: &[u8],
    argument: Option<usize>,
) -> Result<(), Memory>
    ensures { OnOk result
        (tags_of_entries tags.new.entries
        ≡ with_tag (tags_of_entries tags.old.entries) name.now argument) }
{
    if tags.contains_key(name) {
        return Ok(());
    }
    let text = Vec::from_slice(alloc, name)?;
    tags.insert(text, argument)?;
    Ok(())
}

/// Returns the tags of the map as a list, in insertion order.
fn listed(alloc: Global, tags: Tags) -> Result<Vec<TagOf<usize>>, Memory>
    ensures { IfOk result (λ v. v.items ≡ tags_of_entries tags.entries) }
{
    let mut found = Vec::with_capacity(alloc, tags.len())?;
    for (name, argument) in tags {
        found.push(TagOf {
            name: List::of(name),
            argument,
        })?;
    }
    Ok(found)
}

/// Returns true if the type is a bracket, extended by any number of items.
pub(crate) fn has_bracket(t: &Stored<'_>) -> bool
    ensures { result ≡ has_bracket (type_at t.now.types.now t.now.number) }
{
    let types = t.types;
    let mut at = t.number;
    while let Some(whole) = before_item(&Stored { types, number: at }) {
        at = whole;
    }
    match types.node(at) {
        TypeNode::Bracket => true,
        _ => false,
    }
}

/// Pushes the items of a bracket, so that the first item is on top of the stack.
fn push_items(t: &Stored<'_>, waiting: &mut Vec<BracketStep>) -> Result<(), Memory>
    ensures left { OnOk result
        ((decls : List Declaration) (tags all : List (Tag Ty))
        → AreLeft decls t.now.types.now
        (with_items (head decls) tags (items (type_at t.now.types.now t.now.number)))
        (reverse waiting.old.items) all
        → AreLeft decls t.now.types.now tags (reverse waiting.new.items) all) }
    ensures work { OnOk result
        ((decls : List Declaration)
        → steps_work decls t.now.types.now (reverse waiting.new.items)
        ≡ steps_work decls t.now.types.now (reverse waiting.old.items)
        + written_work (work decls) (type_at t.now.types.now t.now.number)) }
{
    let types = t.types;
    let mut at = t.number;
    while let Some(whole) = before_item(&Stored { types, number: at }) {
        waiting.push(BracketStep::Item(at))?;
        at = whole;
    }
    Ok(())
}

/// Returns the index of the bracket without its last item, or `None` if the type has no last item.
pub(crate) fn before_item(t: &Stored<'_>) -> Option<usize>
    ensures is { option_map (type_at t.now.types.now) result
        ≡ before_item (type_at t.now.types.now t.now.number) }
    ensures below { IfSome result (λ i. i < t.now.number) }
{
    match t.types.node(t.number) {
        TypeNode::Tag(whole, _) | TypeNode::TagOf(whole, _, _) | TypeNode::Including(whole, _) =>
            Some(whole),
        _ => None,
    }
}
