//! The least and the greatest elements at and below nodes.

ghost use Rattle.std.specs.Prelude.{ℕ, ◌≡◌, ◌↔◌, length, IsTrue, Contains, vec_len};
ghost use Rattle.base_data.specs.declared.model.value.Val.TheVariants as vals;
ghost use Rattle.trees.specs.search_trees.NodeParts as parts;
ghost use Rattle.trees.specs.search_trees.NodeParts.{IsAtOrBelow};
ghost use Rattle.trees.specs.search_trees.TreeFault.{IsElementLess};
ghost use Rattle.trees.specs.search_trees.Valid.{IsValid};
ghost use Rattle.trees.specs.search_trees.Span.{IsLesser, IsGreater, IsSpread, IsSpan};
ghost use Rattle.trees.specs.search_trees.Span.{IsOnLeftOrAt};
ghost use Rattle.trees.specs.search_trees.Span.{IsLeftOver, IsRightUnder, IsSettledAs, IsSettled};
ghost use Rattle.trees.specs.search_trees.Span.{IsPartSettled, IsReady};

use crate::search_trees::element_order::{Objects, is_element_less};
use crate::search_trees::tree_node::{TreeNode, node_at};
use base_data::model::value::Val;
use marshal_heap::heap::{Heap, NumberedObject};

/// The node with the least element and the node with the greatest element, among some nodes.
#[derive(Clone, Copy)]
pub struct ElementSpan {
    pub least: usize,
    pub greatest: usize,
}

/// The span of all nodes at and below a node, and whether the node is out of order. If a node's
/// span and order are known, the node is settled.
#[derive(Clone, Copy)]
pub struct SettledNode {
    pub span: ElementSpan,
    pub disordered: bool,
}

/// Returns the span of the nodes of two spans, and true if the two spans overlap. Two spans overlap
/// if some element of the first span is not less than some element of the second span.
fn joined(heap: &Heap, first: ElementSpan, second: ElementSpan) -> (ElementSpan, bool)
    requires first { IsSpread heap.now first }
    requires second { IsSpread heap.now second }
    ensures least { IsLesser heap.now first.least second.least result.0.least }
    ensures greatest { IsGreater heap.now first.greatest second.greatest result.0.greatest }
    ensures over { IsTrue result.1 ↔ (¬ IsElementLess heap.now first.greatest second.least) }
{
    let met = Objects {
        heap,
        first: first.greatest as u64,
        second: second.least as u64,
    };
    if is_element_less(&met) {
        (apart(first, second), false)
    } else {
        (across(heap, first, second), true)
    }
}

/// Returns the span of the nodes of two spans, which must not overlap.
fn apart(first: ElementSpan, second: ElementSpan) -> ElementSpan
    ensures least { result.least ≡ first.least }
    ensures greatest { result.greatest ≡ second.greatest }
{
    ElementSpan {
        least: first.least,
        greatest: second.greatest,
    }
}

/// Returns the span of the nodes of two spans, which may overlap.
fn across(heap: &Heap, first: ElementSpan, second: ElementSpan) -> ElementSpan
    requires first { IsSpread heap.now first }
    requires second { IsSpread heap.now second }
    ensures least { IsLesser heap.now first.least second.least result.least }
    ensures greatest { IsGreater heap.now first.greatest second.greatest result.greatest }
{
    let least = Objects {
        heap,
        first: first.least as u64,
        second: second.least as u64,
    };
    let greatest = Objects {
        heap,
        first: first.greatest as u64,
        second: second.greatest as u64,
    };
    ElementSpan {
        least: lesser(&least),
        greatest: greater(&greatest),
    }
}

/// Returns one of two nodes, whose element is not greater than the element of the other node.
fn lesser(nodes: &Objects<'_>) -> usize
    ensures { IsLesser nodes.now.heap.now nodes.now.first nodes.now.second result }
{
    let turned = Objects {
        heap: nodes.heap,
        first: nodes.second,
        second: nodes.first,
    };
    if is_element_less(&turned) {
        nodes.second as usize
    } else {
        nodes.first as usize
    }
}

/// Returns one of two nodes, whose element is not less than the element of the other node.
fn greater(nodes: &Objects<'_>) -> usize
    ensures { IsGreater nodes.now.heap.now nodes.now.first nodes.now.second result }
{
    if is_element_less(nodes) {
        nodes.second as usize
    } else {
        nodes.first as usize
    }
}

/// Returns the span of a node and its left subtree. Also returns true if an element of the left
/// subtree is not less than the element of the node.
fn with_left(
    placed: &NumberedObject<'_>,
    all: &[SettledNode],
    node: TreeNode,
) -> (ElementSpan, bool)
    requires node { node ≡ parts.node_at placed.now.heap.now placed.now.object }
    requires valid { IsValid (length placed.now.heap.now) node }
    requires left { IsPartSettled placed.now.heap.now all.now
        (parts.node_at placed.now.heap.now placed.now.object).left }
    ensures span { IsSpan placed.now.heap.now
        (IsOnLeftOrAt placed.now.heap.now placed.now.object) result.0 }
    ensures over { IsTrue result.1 ↔ IsLeftOver placed.now.heap.now placed.now.object }
{
    let own = ElementSpan {
        least: placed.object as usize,
        greatest: placed.object as usize,
    };
    match node.left {
        Val::Ref(p) => joined(placed.heap, all[p as usize].span, own),
        _ => (own, false),
    }
}

/// Returns the span of a node and all nodes below the node. Also returns true if an element in the
/// right subtree is not greater than the elements of `span`.
fn with_right(
    placed: &NumberedObject<'_>,
    all: &[SettledNode],
    node: TreeNode,
    span: ElementSpan,
) -> (ElementSpan, bool)
    requires node { node ≡ parts.node_at placed.now.heap.now placed.now.object }
    requires valid { IsValid (length placed.now.heap.now) node }
    requires right { IsPartSettled placed.now.heap.now all.now
        (parts.node_at placed.now.heap.now placed.now.object).right }
    requires span { IsSpan placed.now.heap.now
        (IsOnLeftOrAt placed.now.heap.now placed.now.object) span }
    ensures span { IsSpan placed.now.heap.now
        (IsAtOrBelow placed.now.heap.now (vals.Ref placed.now.object)) result.0 }
    ensures under { IsTrue result.1 ↔ IsRightUnder placed.now.heap.now placed.now.object }
{
    match node.right {
        Val::Ref(p) => joined(placed.heap, span, all[p as usize].span),
        _ => (span, false),
    }
}

/// Settles a node from its parts.
#[inline(always)]
pub fn settle_node(heap: &Heap, all: &[SettledNode], o: usize, node: TreeNode) -> SettledNode
    requires ready { IsReady heap.now all.now o }
    requires node { node ≡ parts.node_at heap.now o }
    requires valid { IsValid (length heap.now) node }
    ensures { IsSettledAs heap.now o result }
{
    let placed = NumberedObject {
        heap,
        object: o as u64,
    };
    let left = with_left(&placed, all, node);
    let whole = with_right(&placed, all, node, left.0);
    SettledNode {
        span: whole.0,
        disordered: left.1 || whole.1,
    }
}

/// Settles nodes whose parts are settled.
pub fn settle(heap: &Heap, nodes: &[usize], all: &mut Vec<SettledNode>)
    requires many { vec_len all.old ≡ length heap.now }
    requires ready { (o : ℕ) → Contains nodes.now o → IsReady heap.now all.old.items o }
    ensures many { vec_len all.new ≡ length heap.now }
    ensures settled { (o : ℕ) → Contains nodes.now o → IsSettled heap.now all.new.items o }
    ensures kept { (o : ℕ) → IsSettled heap.now all.old.items o
        → IsSettled heap.now all.new.items o }
{
    for o in nodes {
        let node = node_at(&NumberedObject {
            heap,
            object: *o as u64,
        });
        let known = settle_node(heap, all.as_slice(), *o, node);
        all[*o] = known;
    }
}
