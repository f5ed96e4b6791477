//! The tags in the items of a bracket.

ghost use Rattle.std.specs.Prelude.{◌≡◌, ◌<◌, ◌++◌, IfOk, OnOk};
ghost use Rattle.std.specs.List.{filter_map};
ghost use Rattle.types_spec.specs.types.TypeNodes.{types_of, AreOrdered};
ghost use Rattle.types_spec.specs.types.Scope.{written_tag};
ghost use Rattle.types_resolve.specs.scope.TypeBrackets.{items_known};
ghost use Rattle.types_resolve.specs.occurrences.BracketItems.{tag_at, tag_there};

use crate::scope::{BracketItem, LocatedName};
use base_data::model::Memory;
use base_data::model::list::List;
use base_data::text::copied_name;
use std::alloc::Global;
use types_spec::types::ty::TypeTreeNode;

/// Appends the tag that a node adds to a bracket, if the node adds a tag.
fn write_tag(
    alloc: Global,
    row: &mut List<LocatedName>,
    position: usize,
    node: &TypeTreeNode,
) -> Result<(), Memory>
    ensures { OnOk result (row.new ≡ row.old ++ tag_at position node.now) }
{
    match node {
        TypeTreeNode::Tag(_, x) | TypeTreeNode::TagOf(_, x, _) => {
            row.push(LocatedName::new(position, copied_name(alloc, x)?))
        }
        _ => Ok(()),
    }
}

/// Appends the tag of an item, if the item is a tag.
fn write_written(
    alloc: Global,
    row: &mut List<LocatedName>,
    nodes: &[TypeTreeNode],
    item: &BracketItem,
) -> Result<(), Memory>
    ensures { OnOk result (row.new ≡ row.old ++ tag_there nodes.now item.now) }
{
    match nodes.get(item.node) {
        Some(node) => write_tag(alloc, row, item.position, node),
        None => Ok(()),
    }
}

/// Returns the tags among the items of a bracket, each with its lexeme.
pub fn row_of(
    alloc: Global,
    nodes: &[TypeTreeNode],
    items: &[BracketItem],
) -> Result<List<LocatedName>, Memory>
    requires { AreOrdered nodes.now }
    ensures { IfOk result
        (λ row. row ≡ filter_map written_tag (items_known (types_of nodes.now) items.now)) }
{
    let mut row = List::new(alloc);
    for item in items {
        write_written(alloc, &mut row, nodes, item)?;
    }
    Ok(row)
}
