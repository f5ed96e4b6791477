//! The steps from one abbreviation to another of the same group.

ghost use Rattle.std.specs.Prelude.{ℕ, ◌≡◌, ◌↔◌, Contains, IfOk, IsSome, IsTrue, length, Some};
ghost use Rattle.types_spec.specs.types.Declarations.{abbreviated};
ghost use Rattle.types_resolve.specs.scope.AbbreviationSteps.{HasStep, IsStepGraph, IsStepTo};
ghost use Rattle.types_resolve.specs.scope.AbbreviationSteps.{LeadsTo};

use crate::scope::environment::Environment;
use crate::scope::site::{Site, TypeUse};
use base_data::model::Memory;
use base_data::model::list::List;
use std::alloc::Global;
use types_spec::types::decl::{Body, Decl};

/// Returns true if a declaration is an abbreviation.
fn is_abbreviation(decl: &Decl) -> bool
    ensures { IsTrue result ↔ IsSome (abbreviated decl.now.body) }
{
    match &decl.body {
        Body::Abbreviation(_) => true,
        _ => false,
    }
}

/// Returns true if a use of the name of `other` is a step from a declaration of the group `group`.
fn is_step(group: usize, usage: &TypeUse, other: &Decl) -> bool
    ensures { IsTrue result ↔ IsStepTo group usage.now other.now }
{
    !usage.in_tag && other.group == group && is_abbreviation(other)
}

/// Returns the index of the declaration to which a use is a step, or `None` if the use is not a
/// step.
fn step(decls: &Environment<'_>, group: usize, usage: &TypeUse) -> Option<usize>
    ensures { (j : ℕ) → (result ≡ Some j) ↔ LeadsTo decls.now group usage.now j }
{
    match decls.position(usage.name.as_slice()) {
        Some(j) => {
            if is_step(group, usage, decls.at(j)) {
                Some(j)
            } else {
                None
            }
        }
        None => None,
    }
}

/// Returns the indices of the declarations to which a declaration has steps.
fn steps_of(
    alloc: Global,
    decls: &Environment<'_>,
    decl: &Decl,
    site: &Site,
) -> Result<List<usize>, Memory>
    ensures { IfOk result
        (λ steps. (j : ℕ) → Contains steps j ↔ HasStep decls.now decl.now site.now.uses j) }
{
    let mut steps = List::new(alloc);
    if !is_abbreviation(decl) {
        return Ok(steps);
    }
    let uses = site.uses.as_slice();
    for i in 0..uses.len() {
        if let Some(j) = step(decls, decl.group, &uses[i]) {
            steps.push(j)?;
        }
    }
    Ok(steps)
}

/// Builds the graph whose nodes are the declarations and whose edges are the steps.
pub fn step_graph(
    alloc: Global,
    decls: &Environment<'_>,
    sites: &[Site],
) -> Result<List<List<usize>>, Memory>
    requires { length decls.now ≡ length sites.now }
    ensures { IfOk result (IsStepGraph decls.now sites.now) }
{
    let mut graph = List::new(alloc);
    for i in 0..decls.len() {
        let steps = steps_of(alloc, decls, decls.at(i), &sites[i])?;
        graph.push(steps)?;
    }
    Ok(graph)
}
