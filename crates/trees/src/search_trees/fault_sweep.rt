//! Finds the first fault among nodes in one sweep, if each node comes before its parts.

ghost use Rattle.std.specs.Prelude.{◌≡◌, ◌↔◌, List, length, Some, IfOk, IfSome, IsTrue};
ghost use Rattle.std.specs.Prelude.{vec_len};
ghost use Rattle.std.specs.Bool.{OnTrue};
ghost use Rattle.base_data.specs.declared.model.value.Obj.{Obj};
ghost use Rattle.base_data.specs.model.Graph.{IsValue};
ghost use Rattle.trees.specs.search_trees.NodeJudgement as judgements;
ghost use Rattle.trees.specs.search_trees.NodeJudgement.{AreClosed, IsJudgement};
ghost use Rattle.trees.specs.search_trees.NodeParts as parts;
ghost use Rattle.trees.specs.search_trees.Span.{IsPartSettled};
ghost use Rattle.trees.specs.search_trees.Sweep as sweeps;
ghost use Rattle.trees.specs.search_trees.Sweep.{AreKnown, IsMostSevere};
ghost use Rattle.trees.specs.search_trees.TreeFault.{IsDisordered};
ghost use Rattle.trees.specs.search_trees.Valid.{IsValid};

use crate::search_trees::element_span::{ElementSpan, SettledNode, settle_node};
use crate::search_trees::judging::NodesVerdict;
use crate::search_trees::tree_node::{
    TreeKind, TreeNode, is_count_wrong, is_lopsided, node_at, subtree_heights,
};
use base_data::model::Memory;
use base_data::model::value::Val;
use marshal_heap::heap::{Heap, NumberedObject};
use std::alloc::Global;

/// Finds the first fault among nodes, which must contain the parts of each node, in one sweep from
/// the last to the first. Returns `None` if some node does not come before each of its parts.
pub fn sweep(alloc: Global, heap: &Heap, nodes: &[usize]) -> Result<Option<NodesVerdict>, Memory>
    requires { AreClosed heap.now nodes.now }
    ensures { IfOk result (λ reported. IfSome reported (IsJudgement heap.now nodes.now)) }
{
    let unknown = SettledNode {
        span: ElementSpan {
            least: usize::MAX,
            greatest: usize::MAX,
        },
        disordered: false,
    };
    let mut all = vec![in alloc; unknown; heap.count() as usize]?;
    let mut most_severe = NodesVerdict::Sound;
    for k in 0..nodes.len() {
        let i = nodes.len() - 1 - k;
        let o = nodes[i];
        match sweep_node(
            &NumberedObject {
                heap,
                object: o as u64,
            },
            &mut all,
        ) {
            Some(fault) => most_severe = more_severe(most_severe, fault, i),
            None => return Ok(None),
        }
    }
    Ok(Some(most_severe))
}

/// Settles a node whose parts are settled, and returns its fault. Returns `None` if a part is not
/// settled.
#[inline(always)]
fn sweep_node(placed: &NumberedObject<'_>, all: &mut Vec<SettledNode>) -> Option<Option<TreeKind>>
    requires many { vec_len all.old ≡ length placed.now.heap.now }
    requires known { AreKnown placed.now.heap.now all.old.items }
    ensures many { vec_len all.new ≡ length placed.now.heap.now }
    ensures known { AreKnown placed.now.heap.now all.new.items }
    ensures fault { IfSome result (IsMostSevere placed.now.heap.now placed.now.object) }
{
    let node = node_at(placed);
    if !is_part_known(all.as_slice(), node.left) || !is_part_known(all.as_slice(), node.right) {
        return None;
    }
    let o = placed.object as usize;
    let settled = settle_node(placed.heap, all.as_slice(), o, node);
    all[o] = settled;
    Some(fault_of(placed.heap, o, node, settled.disordered))
}

/// Returns true if a part of a node is settled.
#[inline(always)]
fn is_part_known(all: &[SettledNode], part: Val) -> bool
    requires { IsValue (length all.now) part }
    ensures { OnTrue result
        ((graph : List Obj) → AreKnown graph all.now → IsPartSettled graph all.now part) }
{
    match part {
        Val::Ref(p) => all[p as usize].span.least != usize::MAX,
        _ => true,
    }
}

/// Returns the fault with the lowest rank of the object `o`, whose node is `node`.
#[inline(always)]
fn fault_of(heap: &Heap, o: usize, node: TreeNode, disordered: bool) -> Option<TreeKind>
    requires node { node ≡ parts.node_at heap.now o }
    requires valid { IsValid (length heap.now) node }
    requires disordered { IsTrue disordered ↔ IsDisordered heap.now o }
    ensures { IsMostSevere heap.now o result }
{
    let (left, right) = subtree_heights(heap, node);
    if is_count_wrong(heap, o, node, left, right) {
        return Some(TreeKind::Height);
    }
    if is_lopsided(heap, o, node, left, right) {
        return Some(TreeKind::Balance);
    }
    if disordered {
        return Some(TreeKind::Order);
    }
    None
}

/// Returns the first fault of the nodes from index `i` on, given the first fault of the nodes after
/// `i`.
#[inline(always)]
fn more_severe(most_severe: NodesVerdict, fault: Option<TreeKind>, i: usize) -> NodesVerdict
    ensures { result ≡ sweeps.more_severe most_severe fault i }
{
    match fault {
        Some(kind) => replaced(most_severe, kind, i),
        None => most_severe,
    }
}

/// Returns the fault `kind` of node `i`. If the fault `most_severe` has a lower rank than `kind`,
/// returns `most_severe`.
fn replaced(most_severe: NodesVerdict, kind: TreeKind, i: usize) -> NodesVerdict
    ensures { result ≡ sweeps.replaced most_severe kind i }
{
    match most_severe {
        NodesVerdict::Faulty(other, j) => {
            if rank_of(other) < rank_of(kind) {
                NodesVerdict::Faulty(other, j)
            } else {
                NodesVerdict::Faulty(kind, i)
            }
        }
        NodesVerdict::Sound => NodesVerdict::Faulty(kind, i),
    }
}

/// Returns the rank of a fault. A fault with a lower rank is reported first.
fn rank_of(kind: TreeKind) -> u8
    ensures { result ≡ judgements.rank_of kind }
{
    match kind {
        TreeKind::Height => 0,
        TreeKind::Balance => 1,
        TreeKind::Order => 2,
    }
}
