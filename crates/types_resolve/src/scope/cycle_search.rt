//! Searches for a cycle through a node of a graph.

ghost use Rattle.std.specs.Prelude.{ℕ, ◌≡◌, ◌+◌, ◌<◌, ◌↔◌, ◌∷◌, IfOk, OnOk, IsTrue, length};
ghost use Rattle.std.specs.Prelude.{vec_len};
ghost use Rattle.types_resolve.specs.scope.StepGraph.{IsOnCycle};
ghost use Rattle.types_resolve.specs.scope.CycleSearch.{IsSearch, IsUnseen, unseen_count};

use crate::scope::graph::successors;
use base_data::model::Memory;
use base_data::model::list::List;
use std::alloc::Global;

/// Returns true if the search has not seen the node.
fn is_unseen(seen: &[bool], node: usize) -> bool
    ensures { IsTrue result ↔ IsUnseen seen.now node }
{
    match seen.get(node) {
        Some(seen) => !*seen,
        None => false,
    }
}

/// Marks the successors of a node as seen. Pushes each successor that was unseen onto the stack.
fn expand(
    graph: &[List<usize>],
    node: usize,
    seen: &mut [bool],
    stack: &mut Vec<usize>,
) -> Result<(), Memory>
    requires { node < length graph.now }
    ensures search { OnOk result
        ((start : ℕ) → IsSearch graph.now start seen.old (node ∷ stack.old.items)
        → IsSearch graph.now start seen.new stack.new.items) }
    ensures counted { OnOk result
        (unseen_count seen.new + vec_len stack.new ≡ unseen_count seen.old + vec_len stack.old) }
{
    let nodes = successors(graph, node);
    for i in 0..nodes.len() {
        let next = nodes[i];
        if is_unseen(seen, next) {
            seen[next] = true;
            stack.push(next)?;
        }
    }
    Ok(())
}

/// Returns true if edges lead from a node back to the node.
pub fn is_on_cycle(alloc: Global, graph: &[List<usize>], node: usize) -> Result<bool, Memory>
    requires { node < length graph.now }
    ensures { IfOk result (λ back. IsTrue back ↔ IsOnCycle graph.now node) }
{
    let mut seen = vec![in alloc; false; graph.len()]?;
    let mut stack = vec![in alloc; node]?;
    while let Some(next) = stack.pop() {
        expand(graph, next, &mut seen, &mut stack)?;
    }
    Ok(seen[node])
}
