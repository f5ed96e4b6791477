//! Finds the first fault among the nodes of search trees.

ghost use Rattle.std.specs.Prelude.{ℕ, ◌<◌, length, All, IfOk};
ghost use Rattle.trees.specs.search_trees.TreeFault.{IsMiscounted, IsUnbalanced, IsDisordered};
ghost use Rattle.trees.specs.search_trees.Span.{IsMarked};
ghost use Rattle.trees.specs.search_trees.NodeJudgement.{AreClosed, IsJudgement, IsFirst, HasAt};

use crate::search_trees::element_span::SettledNode;
use crate::search_trees::fault_sweep::sweep;
use crate::search_trees::levels::{by_height, settle_all};
use crate::search_trees::tree_node::{TreeKind, is_miscounted, is_unbalanced};
use base_data::model::Memory;
use marshal_heap::heap::{Heap, NumberedObject};
use std::alloc::Global;

/// The result for a list of nodes: `Sound` if no node has a fault, or the first fault with the
/// position of its node in the list.
#[derive(Clone, Copy)]
pub enum NodesVerdict {
    Sound,
    Faulty(TreeKind, usize),
}

/// Returns the first fault among the nodes, which must contain the parts of each node. A wrong
/// height comes before every other fault. A node whose parts differ too much in height comes before
/// every node that is out of order.
pub fn judge(alloc: Global, heap: &Heap, nodes: &[usize]) -> Result<NodesVerdict, Memory>
    requires { AreClosed heap.now nodes.now }
    ensures { IfOk result (IsJudgement heap.now nodes.now) }
{
    match sweep(alloc, heap, nodes)? {
        Some(judgement) => Ok(judgement),
        None => judge_by_height(alloc, heap, nodes),
    }
}

/// Returns the result that `judge` returns, for nodes in any order.
fn judge_by_height(alloc: Global, heap: &Heap, nodes: &[usize]) -> Result<NodesVerdict, Memory>
    requires { AreClosed heap.now nodes.now }
    ensures { IfOk result (IsJudgement heap.now nodes.now) }
{
    if let Some(i) = first_miscounted(heap, nodes) {
        return Ok(NodesVerdict::Faulty(TreeKind::Height, i));
    }
    if let Some(i) = first_unbalanced(heap, nodes) {
        return Ok(NodesVerdict::Faulty(TreeKind::Balance, i));
    }
    match first_disordered(alloc, heap, nodes)? {
        Some(i) => Ok(NodesVerdict::Faulty(TreeKind::Order, i)),
        None => Ok(NodesVerdict::Sound),
    }
}

/// Returns the first node with a wrong height.
fn first_miscounted(heap: &Heap, nodes: &[usize]) -> Option<usize>
    requires { All (λ o. o < length heap.now) nodes.now }
    ensures { IsFirst (IsMiscounted heap.now) nodes.now result }
{
    for (i, o) in nodes.iter().enumerate() {
        if is_miscounted(&NumberedObject {
            heap,
            object: *o as u64,
        }) {
            return Some(i);
        }
    }
    None
}

/// Returns the first node whose parts differ too much in height.
fn first_unbalanced(heap: &Heap, nodes: &[usize]) -> Option<usize>
    requires { All (λ o. o < length heap.now) nodes.now }
    ensures { IsFirst (IsUnbalanced heap.now) nodes.now result }
{
    for (i, o) in nodes.iter().enumerate() {
        if is_unbalanced(&NumberedObject {
            heap,
            object: *o as u64,
        }) {
            return Some(i);
        }
    }
    None
}

/// Returns the first node that is out of order. No node may have a wrong height.
fn first_disordered(alloc: Global, heap: &Heap, nodes: &[usize]) -> Result<Option<usize>, Memory>
    requires closed { AreClosed heap.now nodes.now }
    requires counted { (i : ℕ) → ¬ HasAt (IsMiscounted heap.now) nodes.now i }
    ensures { IfOk result (IsFirst (IsDisordered heap.now) nodes.now) }
{
    let levels = by_height(alloc, heap, nodes)?;
    let all = settle_all(alloc, heap, levels.as_slice())?;
    Ok(first_marked(nodes, all.as_slice()))
}

/// Returns the first node that is marked as out of order.
fn first_marked(nodes: &[usize], all: &[SettledNode]) -> Option<usize>
    requires { All (λ o. o < length all.now) nodes.now }
    ensures { IsFirst (IsMarked all.now) nodes.now result }
{
    for (i, o) in nodes.iter().enumerate() {
        if all[*o].disordered {
            return Some(i);
        }
    }
    None
}
