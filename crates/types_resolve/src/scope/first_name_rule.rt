//! Finds the first rule on names that a file or a type breaks.

ghost use Rattle.std.specs.Prelude.{◌≡◌, ◌<◌, IfOk, List};
ghost use Rattle.types_spec.specs.types.Occurrence.{DeclPositions, Occurrence};
ghost use Rattle.types_spec.specs.types.Scope.{BreaksInFile, BreaksInType, turn};
ghost use Rattle.types_resolve.specs.scope.Breaks.{rule_of};
ghost use Rattle.types_resolve.specs.scope.First.{IsFirstBefore};
ghost use Rattle.types_resolve.specs.scope.Sites.{AreSites, IsTypeSite};

use crate::scope::environment::Environment;
use crate::scope::rule::NameRule;
use crate::scope::site::{LocatedName, Site, TypeSite};
use crate::scope::sites::{least_break, least_break_in_type};
use base_data::model::Memory;
use std::alloc::Global;
use types_spec::types::decl::Decl;

/// A broken rule on names, and the index of the lexeme that breaks the rule.
#[derive(Clone, Copy)]
pub struct Broken {
    pub rule: NameRule,
    pub position: usize,
}

/// Returns the rule whose turn is `i`, for a turn below 7.
fn rule_at(i: usize) -> NameRule
    requires { i < 7 }
    ensures { turn (rule_of result) ≡ i }
{
    match i {
        0 => NameRule::Twice,
        1 => NameRule::UnknownName,
        2 => NameRule::Arity,
        3 => NameRule::UnboundVariable,
        4 => NameRule::Cyclic,
        5 => NameRule::Irregular,
        _ => NameRule::TooManyConstructors,
    }
}

/// Returns the first rule on names that a file breaks, and the least lexeme that breaks the rule.
/// The rules are checked in the order of their turns.
pub fn first_break(
    alloc: Global,
    decls: &[Decl],
    names: &[LocatedName],
    sites: &[Site],
) -> Result<Option<Broken>, Memory>
    ghost all: { List DeclPositions }
    requires { AreSites decls.now names.now sites.now all }
    ensures { IfOk result (IsFirstBefore (BreaksInFile all) 7) }
{
    let environment = Environment::new(alloc, decls)?;
    first_of_file(alloc, &environment, names, sites)
}

/// Finds the first broken rule of a file, given the environment of its declarations.
fn first_of_file(
    alloc: Global,
    decls: &Environment<'_>,
    names: &[LocatedName],
    sites: &[Site],
) -> Result<Option<Broken>, Memory>
    ghost all: { List DeclPositions }
    requires { AreSites decls.now names.now sites.now all }
    ensures { IfOk result (IsFirstBefore (BreaksInFile all) 7) }
{
    for i in 0..7 {
        let rule = rule_at(i);
        if let Some(position) = least_break(alloc, rule, decls, names, sites)? {
            return Ok(Some(Broken { rule, position }));
        }
    }
    Ok(None)
}

/// Returns the first rule on names that the text of a type breaks, and the least lexeme that breaks
/// the rule.
pub fn first_break_in_type(
    alloc: Global,
    decls: &[Decl],
    site: &TypeSite,
) -> Result<Option<Broken>, Memory>
    ghost occurrences: { List Occurrence }
    requires { IsTypeSite site.now occurrences }
    ensures { IfOk result (IsFirstBefore (BreaksInType decls.now occurrences) 7) }
{
    let environment = Environment::new(alloc, decls)?;
    first_of_type(alloc, &environment, site)
}

/// Finds the first broken rule of a type, given the environment of the declarations.
fn first_of_type(
    alloc: Global,
    decls: &Environment<'_>,
    site: &TypeSite,
) -> Result<Option<Broken>, Memory>
    ghost occurrences: { List Occurrence }
    requires { IsTypeSite site.now occurrences }
    ensures { IfOk result (IsFirstBefore (BreaksInType decls.now occurrences) 7) }
{
    for n in 0..7 {
        let rule = rule_at(n);
        if let Some(position) = least_break_in_type(alloc, rule, decls, site)? {
            return Ok(Some(Broken { rule, position }));
        }
    }
    Ok(None)
}
