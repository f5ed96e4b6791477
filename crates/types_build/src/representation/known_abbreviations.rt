//! Finds the abbreviations that expand to one of their arguments. Each abbreviation is searched
//! once.

ghost use Rattle.std.specs.Prelude.{ℕ, ◌≡◌, ◌<◌, List, Option, Some, None, length, nat_eq};
ghost use Rattle.std.specs.Prelude.{position, option_map, slice_get, IfOk, IfSome, OnOk, IsTrue};
ghost use Rattle.std.specs.Prelude.{◌↔◌};
ghost use Rattle.std.specs.Str.{bytes_eq};
ghost use Rattle.indexmap.specs.IndexMap.{get, index_map_len};
ghost use Rattle.types_spec.specs.declared.types.decl.Decl.{Decl as Declaration};
ghost use Rattle.types_spec.specs.types.Ty.{parts};
ghost use Rattle.types_spec.specs.types.TypeNodes.{type_at};
ghost use Rattle.types_table.specs.store.Held.{Grows};
ghost use Rattle.types_build.specs.representation.AbbreviationWay.{AreKnown, IsAbbreviation, IsOf};
ghost use Rattle.types_build.specs.representation.AbbreviationWay.{EachLeads};
ghost use Rattle.types_build.specs.representation.AbbreviationWay.{EachPasses};
ghost use Rattle.types_build.specs.representation.AbbreviationWay.{IsArgument, IsMore};

use crate::representation::spine::{name, parts};
use crate::representation::stored::Stored;
use base_data::model::Memory;
use indexmap::IndexMap;
use std::alloc::Global;
use types_resolve::scope::SoundEnvironment;
use types_spec::types::decl::{Body, Decl};
use types_table::store::{TypeNode, TypeStore};

/// For each inspected abbreviation, by declaration index: the position of the argument to which the
/// abbreviation expands. If no argument is known, the entry is `None`.
pub type KnownAbbreviations = IndexMap<usize, Option<usize>>;

/// Makes an empty map, in which no abbreviation is inspected.
pub fn none_known(alloc: Global) -> KnownAbbreviations
    ensures { (decls : List Declaration) (group : Option ℕ) → AreKnown decls group result }
{
    IndexMap::new(alloc)
}

/// Returns the declaration index of the abbreviation at the head of a type, or `None` if no
/// abbreviation is at the head.
pub(crate) fn abbreviation(t: &Stored<'_>, decls: &SoundEnvironment<'_>) -> Option<usize>
    ensures { IfSome result (IsAbbreviation decls.now (type_at t.now.types.now t.now.number)) }
{
    let name = name(t)?;
    let found = decls.position(name)?;
    match &decls.at(found).body {
        Body::Abbreviation(_) => Some(found),
        _ => None,
    }
}

/// Returns the position of the argument to which an abbreviation is known to expand.
fn known_argument(known: &KnownAbbreviations, decl: usize) -> Option<usize>
    ensures { IfSome result (λ i. get nat_eq known.now decl ≡ Some (Some i)) }
{
    match known.get(&decl) {
        Some(argument) => *argument,
        None => None,
    }
}

/// Returns part `i` of a type, counted from the left.
fn part(alloc: Global, t: &Stored<'_>, i: usize) -> Result<Option<usize>, Memory>
    ensures is { IfOk result
        (λ part. option_map (type_at t.now.types.now) part
        ≡ slice_get (parts (type_at t.now.types.now t.now.number)) i) }
    ensures below { IfOk result (λ part. IfSome part (λ n. n < t.now.number)) }
{
    let parts = parts(alloc, t)?;
    Ok(nth(parts.as_slice(), i))
}

/// Returns the number at an index.
fn nth(numbers: &[usize], i: usize) -> Option<usize>
    ensures { result ≡ slice_get numbers.now i }
{
    numbers.get(i).copied()
}

/// Returns the argument to which the abbreviation at the head of a type is known to expand.
pub(crate) fn known_part(
    alloc: Global,
    t: &Stored<'_>,
    decls: &SoundEnvironment<'_>,
    known: &KnownAbbreviations,
) -> Result<Option<usize>, Memory>
    ensures passes { IfOk result
        (λ part. (group : Option ℕ) → AreKnown decls.now group known.now
        → IfSome part
        (λ n. EachPasses decls.now group (type_at t.now.types.now t.now.number)
        (type_at t.now.types.now n))) }
    ensures below { IfOk result (λ part. IfSome part (λ n. n < t.now.number)) }
{
    let Some(decl) = abbreviation(t, decls) else {
        return Ok(None);
    };
    match known_argument(known, decl) {
        Some(i) => part(alloc, t, i),
        None => Ok(None),
    }
}

/// Returns the type that remains after each abbreviation at the head is replaced by the argument to
/// which the abbreviation is known to expand.
pub(crate) fn known_end(
    alloc: Global,
    t: &Stored<'_>,
    decls: &SoundEnvironment<'_>,
    known: &KnownAbbreviations,
) -> Result<usize, Memory>
    ensures leads { IfOk result
        (λ end. (group : Option ℕ) → AreKnown decls.now group known.now
        → EachLeads decls.now group (type_at t.now.types.now t.now.number)
        (type_at t.now.types.now end)) }
    ensures below { IfOk result (λ end. end < length t.now.types.now) }
{
    let types = t.types;
    let mut at = t.number;
    while let Some(next) = known_part(alloc, &Stored { types, number: at }, decls, known)? {
        at = next;
    }
    Ok(at)
}

/// Returns true if `group` exists and the declaration belongs to `group`.
fn is_of(group: Option<usize>, decl: &Decl) -> bool
    ensures { IsTrue result ↔ IsOf group decl.now }
{
    match group {
        Some(group) => decl.group == group,
        None => false,
    }
}

/// Returns the index of the parameter if the type is a parameter of the declaration. If the
/// declaration belongs to the group, returns `None`.
fn argument(t: &Stored<'_>, decl: &Decl, group: Option<usize>) -> Option<usize>
    ensures { IfSome result (IsArgument decl.now group (type_at t.now.types.now t.now.number)) }
{
    if is_of(group, decl) {
        return None;
    }
    match t.types.node(t.number) {
        TypeNode::Variable(name) => location(decl, name),
        _ => None,
    }
}

/// Returns the index of the parameter with the name `name`.
fn location(decl: &Decl, name: &[u8]) -> Option<usize>
    ensures { result ≡ position (λ (p : List ℕ). bytes_eq p name.now) decl.now.parameters }
{
    decl.parameters
        .as_slice()
        .iter()
        .position(|parameter| parameter.as_slice() == name)
}

/// Finds the argument to which an abbreviation expands. If another abbreviation must be inspected
/// first, returns the other abbreviation's declaration index.
fn inspect(
    alloc: Global,
    types: &mut TypeStore,
    decls: &SoundEnvironment<'_>,
    group: Option<usize>,
    known: &mut KnownAbbreviations,
    decl: usize,
) -> Result<Option<usize>, Memory>
    requires decl { decl < length decls.now }
    requires known { AreKnown decls.now group known.old }
    ensures known { OnOk result (AreKnown decls.now group known.new) }
    ensures below { IfOk result (λ first. IfSome first (λ other. other < length decls.now)) }
    ensures more { IfOk result (IsMore (index_map_len known.old) (index_map_len known.new)) }
    ensures grown { Grows types.old types.new }
{
    let Body::Abbreviation(body) = &decls.at(decl).body else {
        return Ok(None);
    };
    let start = types.add(alloc, body)?;
    let end = known_end(
        alloc,
        &Stored {
            types,
            number: start,
        },
        decls,
        known,
    )?;
    if let Some(other) = abbreviation(&Stored { types, number: end }, decls) {
        return first_inspect(known, other);
    }
    if let Some(i) = argument(&Stored { types, number: end }, decls.at(decl), group) {
        known.insert(decl, Some(i))?;
    }
    Ok(None)
}

/// Marks the abbreviation as inspected. If the abbreviation was not inspected before, returns its
/// declaration index.
fn first_inspect(known: &mut KnownAbbreviations, decl: usize) -> Result<Option<usize>, Memory>
    ensures known { OnOk result
        ((decls : List Declaration) (group : Option ℕ) → decl < length decls
        → AreKnown decls group known.old → AreKnown decls group known.new) }
    ensures is { IfOk result (λ first. IfSome first (λ n. n ≡ decl)) }
    ensures more { IfOk result (IsMore (index_map_len known.old) (index_map_len known.new)) }
{
    if known.contains_key(&decl) {
        return Ok(None);
    }
    known.insert(decl, None)?;
    Ok(Some(decl))
}

/// Finds the argument to which an abbreviation expands. Abbreviations at the head of the
/// abbreviated type are inspected first. Each abbreviation is inspected once, and again after each
/// abbreviation on which the result depends.
pub(crate) fn inspect_at(
    alloc: Global,
    types: &mut TypeStore,
    decls: &SoundEnvironment<'_>,
    group: Option<usize>,
    known: &mut KnownAbbreviations,
    decl: usize,
) -> Result<(), Memory>
    requires decl { decl < length decls.now }
    requires known { AreKnown decls.now group known.old }
    ensures known { OnOk result (AreKnown decls.now group known.new) }
    ensures grown { Grows types.old types.new }
{
    let Some(first) = first_inspect(known, decl)? else {
        return Ok(());
    };
    let mut waiting = vec![in alloc; first]?;
    while let Some(next) = waiting.pop() {
        if let Some(first) = inspect(alloc, types, decls, group, known, next)? {
            waiting.push(next)?;
            waiting.push(first)?;
        }
    }
    Ok(())
}
