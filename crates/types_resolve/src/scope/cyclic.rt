//! Finds cyclic abbreviations, which expand to themselves.

ghost use Rattle.std.specs.Prelude.{ℕ, ◌≡◌, ◌<◌, ◌↔◌, IfOk, IsTrue, List, length};
ghost use Rattle.types_spec.specs.types.Occurrence.{DeclPositions};
ghost use Rattle.types_spec.specs.types.Scope.{BreaksInFile, NamesBreak, cyclic, twice};
ghost use Rattle.types_resolve.specs.scope.Cyclic.{ComesBefore, IsCyclicName};
ghost use Rattle.types_resolve.specs.scope.StepGraph.{IsOnCycle};
ghost use Rattle.types_resolve.specs.scope.Least.{IsLeast};
ghost use Rattle.types_resolve.specs.scope.Ranks.{AreRanks};
ghost use Rattle.types_resolve.specs.scope.Sites.{AreSites};

use crate::scope::abbreviation_steps::step_graph;
use crate::scope::cycle_search::is_on_cycle;
use crate::scope::environment::Environment;
use crate::scope::least::{earliest, position_if};
use crate::scope::ranks::{VisitState, is_ranked, ranks};
use crate::scope::site::{LocatedName, Site};
use base_data::model::Memory;
use base_data::model::list::List;
use std::alloc::Global;

/// Returns true if `best` is `None`, or if `position` is less than `best`.
fn comes_before(position: usize, best: Option<usize>) -> bool
    ensures { IsTrue result ↔ ComesBefore position best }
{
    match best {
        None => true,
        Some(best) => position < best,
    }
}

/// Returns true if a node lies on a cycle. A node with a rank lies on no cycle.
fn comes_back(
    alloc: Global,
    graph: &[List<usize>],
    marks: &[VisitState],
    node: usize,
) -> Result<bool, Memory>
    requires node { node < length graph.now }
    requires ranks { AreRanks graph.now marks.now }
    ensures { IfOk result (λ back. IsTrue back ↔ IsOnCycle graph.now node) }
{
    if is_ranked(marks, node) {
        Ok(false)
    } else {
        is_on_cycle(alloc, graph, node)
    }
}

/// Returns the least lexeme of a name whose node lies on a cycle. After a first name is found, the
/// search tries only names with lesser lexemes.
fn least_cyclic_name(
    alloc: Global,
    graph: &[List<usize>],
    names: &[LocatedName],
) -> Result<Option<usize>, Memory>
    requires { length graph.now ≡ length names.now }
    ensures { IfOk result (IsLeast (IsCyclicName graph.now names.now)) }
{
    let marks = ranks(alloc, graph)?;
    let mut best = None;
    for i in 0..names.len() {
        let position = names[i].position();
        if comes_before(position, best) {
            let back = comes_back(alloc, graph, marks.as_slice(), i)?;
            best = earliest(best, position_if(back, position));
        }
    }
    Ok(best)
}

/// Returns the least lexeme of the declared name of a cyclic abbreviation.
pub fn least_cyclic(
    alloc: Global,
    decls: &Environment<'_>,
    names: &[LocatedName],
    sites: &[Site],
) -> Result<Option<usize>, Memory>
    ghost all: { List DeclPositions }
    requires sites { AreSites decls.now names.now sites.now all }
    requires distinct { (k : ℕ) → ¬ NamesBreak all twice k }
    ensures { IfOk result (IsLeast (BreaksInFile all cyclic)) }
{
    let graph = step_graph(alloc, decls, sites)?;
    least_cyclic_name(alloc, graph.as_slice(), names)
}
