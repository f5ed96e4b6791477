//! Computes the verdict on the sets and maps in a value.

ghost use Rattle.std.specs.Prelude.{◌≡◌, ◌<◌, ◌↔◌, length, All, IfOk, IfSome, IsTrue};
ghost use Rattle.base_data.specs.declared.model.value.Val.TheVariants as vals;
ghost use Rattle.types_spec.specs.types.Table.{table_shapes};
ghost use Rattle.types_spec.specs.types.Typing.{HasType};
ghost use Rattle.types_table.specs.type_table.Made.{table_of};
ghost use Rattle.check_heap.specs.check.KnownVisits.{AreOrdered};
ghost use Rattle.trees.specs.search_trees.NodeJudgement.{AreClosed};
ghost use Rattle.trees.specs.value_verdict.NodeVisits.{NoneMarked, IsVerdictAmong};
ghost use Rattle.trees.specs.value_verdict.TreeTable.{IsTreeTable, AreMarked, IsTableVerdict};

use crate::search_trees::{NodesVerdict, TreeVerdict, judge, tree_types};
use crate::value_verdict::found_nodes::{is_marked, nodes_found};
use crate::value_verdict::tree_nodes::{TreeNodes, nodes_among};
use base_data::model::Memory;
use base_data::model::path::Path;
use base_data::model::value::Val;
use check_heap::check::{AllMet, met};
use marshal_heap::heap::{Heap, Rooted};
use std::alloc::Global;
use types_table::type_table::TypeTable;

/// Returns the verdict on the sets and maps in a value of type 0: the first fault, or the number of
/// nodes. Each object counts once for each class of equal types. If the table has no type of a set
/// or a map, does not inspect the value.
pub fn trees(alloc: Global, value: &Rooted<'_>, table: &TypeTable) -> Result<TreeVerdict, Memory>
    requires table { IsTreeTable table.now }
    requires has { HasType (table_shapes (table_of table.now)) value.now.heap.now value.now.root 0 }
    ensures { IfOk result (IsTableVerdict table.now value.now.heap.now value.now.root) }
{
    let found = tree_types(alloc, table)?;
    if has_none(found.as_slice()) {
        return Ok(TreeVerdict::Sound(0));
    }
    match verdict_found(alloc, value, table, found.as_slice())? {
        Some(verdict) => Ok(verdict),
        None => verdict_by(alloc, value, table, found.as_slice()),
    }
}

/// Returns true if no type is marked.
fn has_none(found: &[bool]) -> bool
    ensures { IsTrue result ↔ NoneMarked found.now }
{
    for is_tree in found {
        if *is_tree {
            return false;
        }
    }
    true
}

/// Returns the verdict if no path is needed, or if the fault is at the root. If the path of a fault
/// is needed, returns `None`.
fn verdict_found(
    alloc: Global,
    value: &Rooted<'_>,
    table: &TypeTable,
    found: &[bool],
) -> Result<Option<TreeVerdict>, Memory>
    requires table { IsTreeTable table.now }
    requires has { HasType (table_shapes (table_of table.now)) value.now.heap.now value.now.root 0 }
    requires found { AreMarked table.now found.now }
    ensures { IfOk result
        (λ known. IfSome known (IsTableVerdict table.now value.now.heap.now value.now.root)) }
{
    table.holds();
    let nodes = nodes_found(alloc, value, table, found)?;
    match judge(alloc, value.heap, nodes.as_slice())? {
        NodesVerdict::Sound => Ok(Some(TreeVerdict::Sound(nodes.len() as u64))),
        NodesVerdict::Faulty(kind, i) => {
            if is_marked(found, 0) && is_object(value.root, nodes[i]) {
                return Ok(Some(TreeVerdict::Faulty(kind, Path::new(alloc))));
            }
            Ok(None)
        }
    }
}

/// Returns true if a value is a reference to object `o`.
fn is_object(v: Val, o: usize) -> bool
    ensures { IsTrue result ↔ (v ≡ vals.Ref o) }
{
    match v {
        Val::Ref(p) => p == o as u64,
        _ => false,
    }
}

/// Returns the verdict, given the marked types of sets and maps.
fn verdict_by(
    alloc: Global,
    value: &Rooted<'_>,
    table: &TypeTable,
    found: &[bool],
) -> Result<TreeVerdict, Memory>
    requires table { IsTreeTable table.now }
    requires has { HasType (table_shapes (table_of table.now)) value.now.heap.now value.now.root 0 }
    requires found { AreMarked table.now found.now }
    ensures { IfOk result (IsTableVerdict table.now value.now.heap.now value.now.root) }
{
    table.holds();
    let all = met(alloc, value.heap, value.root, table)?;
    let nodes = nodes_among(alloc, &all, found)?;
    verdict_among(alloc, value.heap, &all, &nodes)
}

/// Returns the verdict on the nodes among the visits.
fn verdict_among(
    alloc: Global,
    heap: &Heap,
    all: &AllMet,
    nodes: &TreeNodes,
) -> Result<TreeVerdict, Memory>
    requires ordered { AreOrdered all.now }
    requires inside { All (λ k. k < length all.now) nodes.now.visits.items }
    requires many { length nodes.now.visits.items ≡ length nodes.now.objects.items }
    requires closed { AreClosed heap.now nodes.now.objects.items }
    ensures { IfOk result (IsVerdictAmong heap.now all.now nodes.now) }
{
    match judge(alloc, heap, nodes.objects.as_slice())? {
        NodesVerdict::Sound => Ok(TreeVerdict::Sound(nodes.objects.len() as u64)),
        NodesVerdict::Faulty(kind, i) => {
            let path = all.path(alloc, nodes.visits[i])?;
            Ok(TreeVerdict::Faulty(kind, path))
        }
    }
}
