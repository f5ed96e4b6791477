//! Expands abbreviations at the head of a type.

ghost use Rattle.std.specs.Prelude.{ℕ, ◌≡◌, ◌<◌, Option, None, length, IfOk, IfSome, OnErr, OnOk};
ghost use Rattle.std.specs.Prelude.{MatchOption};
ghost use Rattle.types_spec.specs.types.TypeNodes.{type_at};
ghost use Rattle.types_spec.specs.types.Declarations.{unfolded, IsExpanded};
ghost use Rattle.types_table.specs.store.Held.{Grows};
ghost use Rattle.types_build.specs.representation.Unfolded.{IsReplaced, IsLeft, HasHeadOf};
ghost use Rattle.types_build.specs.representation.AbbreviationWay.{AreKnown, IsAbbreviation};
ghost use Rattle.types_build.specs.representation.AbbreviationWay.{IsBare, IsNearer};

use crate::representation::known_abbreviations::{
    KnownAbbreviations, abbreviation, inspect_at, known_part, none_known,
};
use crate::representation::spine::{name, parts};
use crate::representation::stored::Stored;
use base_data::model::Memory;
use std::alloc::Global;
use types_resolve::scope::SoundEnvironment;
use types_spec::types::decl::Body;
use types_table::store::TypeStore;

/// Returns the type after one expansion at its head, or `None` if no abbreviation is at the head.
/// Takes one step for each node of the abbreviated type and for each part.
pub fn unfolded(
    alloc: Global,
    types: &mut TypeStore,
    decls: &SoundEnvironment<'_>,
    number: usize,
) -> Result<Option<usize>, Memory>
    requires number { number < length types.old }
    ensures ok { IfOk result
        (λ next. MatchOption next
        (IsLeft decls.now types.old types.new (type_at types.old number))
        (IsReplaced decls.now types.old types.new (type_at types.old number))) }
    ensures err { OnErr result (types.new ≡ types.old) }
{
    let decl = match name(&Stored { types, number }) {
        Some(name) => decls.get(name),
        None => None,
    };
    let Some(decl) = decl else {
        return Ok(None);
    };
    let Body::Abbreviation(body) = &decl.body else {
        return Ok(None);
    };
    let arguments = parts(alloc, &Stored { types, number })?;
    let next = types.instance(
        alloc,
        body,
        decl.parameters.as_slice(),
        arguments.as_slice(),
    )?;
    Ok(Some(next))
}

/// Returns the argument to which the abbreviation at the head is known to expand. If no argument is
/// known, returns the type after one expansion.
fn passed(
    alloc: Global,
    types: &mut TypeStore,
    decls: &SoundEnvironment<'_>,
    known: &KnownAbbreviations,
    number: usize,
) -> Result<Option<usize>, Memory>
    requires number { number < length types.old }
    ensures ok { IfOk result
        (λ next. (group : Option ℕ) → AreKnown decls.now group known.now
        → MatchOption next (unfolded decls.now (type_at types.old number) ≡ None)
        (IsNearer decls.now group types.new (type_at types.old number))) }
    ensures grown { Grows types.old types.new }
{
    match known_part(alloc, &Stored { types, number }, decls, known)? {
        Some(next) => Ok(Some(next)),
        None => unfolded(alloc, types, decls, number),
    }
}

/// Returns the type after one expansion of an abbreviation without parameters at its head. Takes
/// one step for each node of the abbreviated type.
fn bare_unfolded(
    alloc: Global,
    types: &mut TypeStore,
    decls: &SoundEnvironment<'_>,
    number: usize,
    decl: usize,
) -> Result<Option<usize>, Memory>
    requires number { number < length types.old }
    requires decl { IsAbbreviation decls.now (type_at types.old number) decl }
    requires bare { IsBare decls.now decl }
    ensures ok { IfOk result
        (λ next. MatchOption next
        (IsLeft decls.now types.old types.new (type_at types.old number))
        (IsReplaced decls.now types.old types.new (type_at types.old number))) }
    ensures err { OnErr result (types.new ≡ types.old) }
{
    let Body::Abbreviation(body) = &decls.at(decl).body else {
        return unfolded(alloc, types, decls, number);
    };
    let next = types.add(alloc, body)?;
    Ok(Some(next))
}

/// Returns the type after one or more expansions at its head, or `None` if no abbreviation is at
/// the head. Each expansion after the first is of an abbreviation outside the group.
pub fn nearer(
    alloc: Global,
    types: &mut TypeStore,
    decls: &SoundEnvironment<'_>,
    group: Option<usize>,
    known: &mut KnownAbbreviations,
    number: usize,
) -> Result<Option<usize>, Memory>
    requires number { number < length types.old }
    requires known { AreKnown decls.now group known.old }
    ensures ok { IfOk result
        (λ next. MatchOption next (unfolded decls.now (type_at types.old number) ≡ None)
        (IsNearer decls.now group types.new (type_at types.old number))) }
    ensures known { OnOk result (AreKnown decls.now group known.new) }
    ensures grown { Grows types.old types.new }
{
    let decl = abbreviation(&Stored { types, number }, decls);
    nearer_from(alloc, types, decls, group, known, number, decl)
}

/// Returns the same result as `nearer`, given the abbreviation at the head. An abbreviation without
/// parameters is expanded once, because no argument exists to which the abbreviation could expand.
pub(crate) fn nearer_from(
    alloc: Global,
    types: &mut TypeStore,
    decls: &SoundEnvironment<'_>,
    group: Option<usize>,
    known: &mut KnownAbbreviations,
    number: usize,
    decl: Option<usize>,
) -> Result<Option<usize>, Memory>
    requires number { number < length types.old }
    requires known { AreKnown decls.now group known.old }
    requires decl { IfSome decl (IsAbbreviation decls.now (type_at types.old number)) }
    ensures ok { IfOk result
        (λ next. MatchOption next (unfolded decls.now (type_at types.old number) ≡ None)
        (IsNearer decls.now group types.new (type_at types.old number))) }
    ensures known { OnOk result (AreKnown decls.now group known.new) }
    ensures grown { Grows types.old types.new }
{
    let Some(decl) = decl else {
        return unfolded(alloc, types, decls, number);
    };
    if decls.at(decl).parameters.as_slice().is_empty() {
        return bare_unfolded(alloc, types, decls, number, decl);
    }
    inspect_at(alloc, types, decls, group, known, decl)?;
    passed(alloc, types, decls, known, number)
}

/// Returns the type after all expansions at its head. An abbreviation that expands to one of its
/// arguments is skipped in one step. Therefore each other abbreviation is expanded at most once
/// before the head of an argument is reached. May append types to `types`, even if the result is
/// `Memory`.
pub fn expanded(
    alloc: Global,
    types: &mut TypeStore,
    decls: &SoundEnvironment<'_>,
    number: usize,
) -> Result<usize, Memory>
    requires number { number < length types.old }
    ensures ok { IfOk result (HasHeadOf decls.now types.new (type_at types.old number)) }
    ensures expanded { IfOk result
        (λ i. IsExpanded decls.now (type_at types.old number) (type_at types.new i)) }
    ensures grown { Grows types.old types.new }
{
    decls.holds();
    let mut known = none_known(alloc);
    let mut at = number;
    'next: while let Some(next) = nearer(alloc, types, decls, None, &mut known, at)? {
        at = next;
    }
    Ok(at)
}
