//! Checks rules on names over all declarations of a text.

ghost use Rattle.std.specs.Prelude.{◌≡◌, ℕ, List, IfOk, length, slice_get};
ghost use Rattle.types_spec.specs.types.Occurrence.{DeclPositions, Occurrence};
ghost use Rattle.types_spec.specs.types.Scope.{BreaksInFile, BreaksInType, NamesBreak, twice};
ghost use Rattle.types_resolve.specs.scope.Breaks.{SiteBreaks, SitesBreak, NameBreaks, TypeBreaks};
ghost use Rattle.types_resolve.specs.scope.Breaks.{WantsDistinctNames, rule_of};
ghost use Rattle.types_resolve.specs.scope.Least.{IsLeast};
ghost use Rattle.types_resolve.specs.scope.Sites.{AreSites, IsTypeSite};

use crate::scope::cyclic::least_cyclic;
use crate::scope::declared_names::least_name_twice;
use crate::scope::environment::Environment;
use crate::scope::least::earliest;
use crate::scope::name_uses::least_use;
use crate::scope::rule::{NameRule, UseRule};
use crate::scope::seconds::least_second_of_rows;
use crate::scope::site::{LocatedName, Site, TypeSite};
use crate::scope::variables::least_unbound;
use base_data::model::Memory;
use std::alloc::Global;
use types_spec::types::decl::Decl;

/// Returns the lexeme at index `n` of the list.
fn nth(positions: &[usize], n: usize) -> Option<usize>
    ensures { result ≡ slice_get positions.now n }
{
    positions.get(n).copied()
}

/// Returns the least lexeme at which a declaration breaks the rule `rule`.
fn least_in_site(
    alloc: Global,
    rule: NameRule,
    decls: &Environment<'_>,
    decl: &Decl,
    site: &Site,
) -> Result<Option<usize>, Memory>
    ensures { IfOk result (IsLeast (SiteBreaks rule decls.now decl.now site.now)) }
{
    let uses = site.uses.as_slice();
    let group = Some(decl.group);
    match rule {
        NameRule::Twice => least_second_of_rows(alloc, site.rows.as_slice()),
        NameRule::UnknownName => Ok(least_use(UseRule::UnknownName, decls, group, uses)),
        NameRule::Arity => Ok(least_use(UseRule::Arity, decls, group, uses)),
        NameRule::UnboundVariable => least_unbound(
            alloc,
            decl.parameters.as_slice(),
            site.variables.as_slice(),
        ),
        NameRule::Cyclic => Ok(None),
        NameRule::Irregular => Ok(least_use(UseRule::Irregular, decls, group, uses)),
        NameRule::TooManyConstructors => Ok(nth(site.carrying.as_slice(), 244)),
    }
}

/// Returns the least lexeme at which the text of a type breaks the rule, given the occurrences in
/// the text.
pub fn least_in_type(
    alloc: Global,
    rule: NameRule,
    decls: &Environment<'_>,
    site: &TypeSite,
) -> Result<Option<usize>, Memory>
    ensures { IfOk result (IsLeast (TypeBreaks rule decls.now site.now)) }
{
    let uses = site.uses.as_slice();
    match rule {
        NameRule::Twice => least_second_of_rows(alloc, site.rows.as_slice()),
        NameRule::UnknownName => Ok(least_use(UseRule::UnknownName, decls, None, uses)),
        NameRule::Arity => Ok(least_use(UseRule::Arity, decls, None, uses)),
        NameRule::UnboundVariable
        | NameRule::Cyclic
        | NameRule::Irregular
        | NameRule::TooManyConstructors => Ok(None),
    }
}

/// Returns the least lexeme at which some declaration breaks the rule.
pub fn least_in_sites(
    alloc: Global,
    rule: NameRule,
    decls: &Environment<'_>,
    sites: &[Site],
) -> Result<Option<usize>, Memory>
    requires { length decls.now ≡ length sites.now }
    ensures { IfOk result (IsLeast (SitesBreak rule decls.now sites.now)) }
{
    let mut best = None;
    for i in 0..decls.len() {
        let found = least_in_site(alloc, rule, decls, decls.at(i), &sites[i])?;
        best = earliest(best, found);
    }
    Ok(best)
}

/// Returns the least lexeme of a declared name that breaks the rule.
pub fn least_in_names(
    alloc: Global,
    rule: NameRule,
    names: &[LocatedName],
) -> Result<Option<usize>, Memory>
    ensures { IfOk result (IsLeast (NameBreaks rule names.now)) }
{
    match rule {
        NameRule::Twice => least_name_twice(alloc, names),
        _ => Ok(None),
    }
}

/// Returns the least lexeme at which a file breaks the rule.
pub fn least_break(
    alloc: Global,
    rule: NameRule,
    decls: &Environment<'_>,
    names: &[LocatedName],
    sites: &[Site],
) -> Result<Option<usize>, Memory>
    ghost all: { List DeclPositions }
    requires sites { AreSites decls.now names.now sites.now all }
    requires distinct { WantsDistinctNames rule → (k : ℕ) → ¬ NamesBreak all twice k }
    ensures { IfOk result (IsLeast (BreaksInFile all (rule_of rule))) }
{
    match rule {
        NameRule::Cyclic => least_cyclic(alloc, decls, names, sites),
        _ => {
            let in_names = least_in_names(alloc, rule, names)?;
            let in_sites = least_in_sites(alloc, rule, decls, sites)?;
            Ok(earliest(in_names, in_sites))
        }
    }
}

/// Returns the least lexeme at which the text of a type breaks the rule.
pub fn least_break_in_type(
    alloc: Global,
    rule: NameRule,
    decls: &Environment<'_>,
    site: &TypeSite,
) -> Result<Option<usize>, Memory>
    ghost occurrences: { List Occurrence }
    requires { IsTypeSite site.now occurrences }
    ensures { IfOk result (IsLeast (BreaksInType decls.now occurrences (rule_of rule))) }
{
    least_in_type(alloc, rule, decls, site)
}
