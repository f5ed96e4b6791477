//! Ranks the nodes of a graph. A node with a rank lies on no cycle.

ghost use Rattle.std.specs.Prelude.{◌≡◌, ◌+◌, ◌<◌, ◌↔◌, IfOk, IsTrue, length};
ghost use Rattle.std.specs.List.{list_all};
ghost use Rattle.types_resolve.specs.scope.Ranks.{AreRanks, IsNew, RanksBelow, is_ranked};

use crate::scope::graph::successors;
use base_data::model::Memory;
use base_data::model::list::List;
use std::alloc::Global;

/// The state of a node during the traversal of the graph.
#[derive(Clone, Copy)]
pub enum VisitState {
    New,
    /// The successors of the node were pushed onto the stack.
    Opened,
    /// All successors of the node have lower ranks.
    Ranked(usize),
}

/// Returns true if a node has a rank.
pub fn is_ranked(marks: &[VisitState], node: usize) -> bool
    ensures { result ≡ is_ranked marks.now node }
{
    match marks.get(node) {
        Some(VisitState::Ranked(_)) => true,
        _ => false,
    }
}

/// Returns true if each of `nodes` has a rank.
fn are_ranked(marks: &[VisitState], nodes: &[usize]) -> bool
    ensures { result ≡ list_all (λ i. is_ranked marks.now i) nodes.now }
{
    nodes.iter().all(|node| is_ranked(marks, *node))
}

/// Returns true if the traversal has neither opened nor ranked the node.
fn is_new(marks: &[VisitState], node: usize) -> bool
    ensures { IsTrue result ↔ IsNew marks.now node }
{
    match marks.get(node) {
        Some(VisitState::New) => true,
        _ => false,
    }
}

/// Pushes each node of `nodes` that is new onto the stack.
fn push_new(marks: &[VisitState], nodes: &[usize], stack: &mut Vec<usize>) -> Result<(), Memory> {
    for node in nodes {
        if is_new(marks, *node) {
            stack.push(*node)?;
        }
    }
    Ok(())
}

/// If all successors of the node have ranks, ranks the node. If the node is new and some successor
/// has no rank, opens the node. Returns true if the node was opened.
fn rank_or_open(graph: &[List<usize>], node: usize, turn: usize, marks: &mut [VisitState]) -> bool
    requires node { node < length graph.now }
    requires ranks { AreRanks graph.now marks.old }
    requires below { RanksBelow marks.old turn }
    ensures ranks { AreRanks graph.now marks.new }
    ensures below { RanksBelow marks.new (turn + 1) }
{
    if is_ranked(marks, node) {
        return false;
    }
    if are_ranked(marks, successors(graph, node)) {
        marks[node] = VisitState::Ranked(turn);
        return false;
    }
    if is_new(marks, node) {
        marks[node] = VisitState::Opened;
        return true;
    }
    false
}

/// If all successors of a node have ranks, ranks the node. If the node is new and some successor
/// has no rank, pushes the node onto the stack, followed by the node's new successors.
fn visit(
    graph: &[List<usize>],
    node: usize,
    turn: usize,
    marks: &mut [VisitState],
    stack: &mut Vec<usize>,
) -> Result<(), Memory>
    requires ranks { AreRanks graph.now marks.old }
    requires below { RanksBelow marks.old turn }
    ensures ranks { AreRanks graph.now marks.new }
    ensures below { RanksBelow marks.new (turn + 1) }
{
    if node < graph.len() && rank_or_open(graph, node, turn, marks) {
        stack.push(node)?;
        push_new(marks, successors(graph, node), stack)?;
    }
    Ok(())
}

/// Ranks all nodes from which no edges lead to a cycle, in one traversal of the graph.
pub fn ranks(alloc: Global, graph: &[List<usize>]) -> Result<Vec<VisitState>, Memory>
    ensures { IfOk result (λ marks. AreRanks graph.now marks.items) }
{
    let mut marks = vec![in alloc; VisitState::New; graph.len()]?;
    let mut stack: Vec<usize> = (0..graph.len()).collect(alloc)?;
    for turn in 0..usize::MAX {
        match stack.pop() {
            Some(node) => visit(graph, node, turn, &mut marks, &mut stack)?,
            None => break,
        }
    }
    Ok(marks)
}
