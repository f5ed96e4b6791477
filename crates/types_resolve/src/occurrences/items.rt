//! The items of a bracket.

ghost use Rattle.std.specs.Prelude.{◌≡◌, ◌<◌, ◌++◌, ◌∷◌, [], IfOk, OnOk, length, drop, reverse};
ghost use Rattle.types_spec.specs.types.TypeNodes.{types_of, type_at, AreOrdered};
ghost use Rattle.types_resolve.specs.occurrences.Counted.{items_in};
ghost use Rattle.types_resolve.specs.scope.TypeBrackets.{items_known};
ghost use Rattle.types_resolve.specs.occurrences.Facts.{AreFacts};
ghost use Rattle.types_resolve.specs.occurrences.BracketItems.{without_item};

use crate::occurrences::fact::{Facts, fact_at};
use crate::occurrences::mark::position_at;
use crate::scope::BracketItem;
use base_data::model::Memory;
use base_data::model::list::List;
use std::alloc::Global;
use types_spec::types::ty::TypeTreeNode;

/// Returns the node of the bracket without its last item. If the node is not an item, returns
/// `None`.
fn without_item(node: &TypeTreeNode) -> Option<usize>
    ensures { result ≡ without_item node.now }
{
    match node {
        TypeTreeNode::Tag(w, _) | TypeTreeNode::TagOf(w, _, _) | TypeTreeNode::Including(w, _) =>
            Some(*w),
        _ => None,
    }
}

/// Returns the items in reverse order.
fn reversed(alloc: Global, mut items: Vec<BracketItem>) -> Result<List<BracketItem>, Memory>
    ensures { IfOk result (λ all. all ≡ reverse items.items) }
{
    let mut all = List::new(alloc);
    while let Some(item) = items.pop() {
        all.push(item)?;
    }
    Ok(all)
}

/// Appends an item.
fn write_item(items: &mut Vec<BracketItem>, position: usize, node: usize) -> Result<(), Memory>
    ensures { OnOk result
        (items.new.items ≡ items.old.items ++ record { position = position; node = node } ∷ []) }
{
    Ok(items.push(BracketItem { position, node })?)
}

/// Returns the items of a node's bracket. The marks of the bracket's parts begin with the mark of
/// index `first`.
pub fn items_of(
    alloc: Global,
    nodes: &[TypeTreeNode],
    facts: &[Facts],
    marks: &[usize],
    node: usize,
    first: usize,
) -> Result<List<BracketItem>, Memory>
    requires ordered { AreOrdered nodes.now }
    requires facts { AreFacts (types_of nodes.now) (length nodes.now) facts.now }
    requires node { node < length nodes.now }
    ensures { IfOk result
        (λ items. items_known (types_of nodes.now) items
        ≡ items_in (drop first marks.now) (type_at (types_of nodes.now) node)) }
{
    let mut items = Vec::new(alloc);
    let mut n = node;
    while let Some(w) = without_item(&nodes[n]) {
        let position = position_at(marks, first.saturating_add(fact_at(facts, w).inner));
        write_item(&mut items, position, n)?;
        n = w;
    }
    reversed(alloc, items)
}
