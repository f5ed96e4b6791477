//! Collects the nodes of sets and maps from a check, without paths.

ghost use Rattle.std.specs.Prelude.{◌≡◌, ◌+◌, ◌<◌, length, take, IfOk, OnOk, slice_index_or, false};
ghost use Rattle.types_spec.specs.types.Table.{table_shapes};
ghost use Rattle.types_spec.specs.types.Typing.{HasType};
ghost use Rattle.types_table.specs.type_table.Made.{table_of};
ghost use Rattle.trees.specs.value_verdict.NodePairs.{AreNodeObjects, marked_objects};
ghost use Rattle.trees.specs.value_verdict.TreeTable.{IsTreeTable, AreMarked};

use base_data::model::Memory;
use check_heap::check::{Steps, Typing, Verdict, check};
use marshal_heap::heap::Rooted;
use std::alloc::Global;
use types_table::type_table::TypeTable;

/// Returns the objects of the nodes in a value that has its type. Each object occurs once for each
/// class of equal types.
pub fn nodes_found(
    alloc: Global,
    value: &Rooted<'_>,
    table: &TypeTable,
    found: &[bool],
) -> Result<Vec<usize>, Memory>
    requires table { IsTreeTable table.now }
    requires has { HasType (table_shapes (table_of table.now)) value.now.heap.now value.now.root 0 }
    requires found { AreMarked table.now found.now }
    ensures { IfOk result
        (λ nodes. AreNodeObjects table.now value.now.heap.now value.now.root nodes.items) }
{
    table.holds();
    let mut steps = Steps::new();
    match check(alloc, value.heap, value.root, table, &mut steps)? {
        Verdict::Yes(typing) => objects_at(alloc, &typing, found),
        Verdict::No(_) => unreachable!(),
    }
}

/// Returns the objects of the pairs at marked types.
fn objects_at(alloc: Global, typing: &Typing, found: &[bool]) -> Result<Vec<usize>, Memory>
    ensures { IfOk result (λ nodes. nodes.items ≡ marked_objects found.now typing.now) }
{
    let mut nodes = Vec::new(alloc);
    for k in 0..typing.len() {
        take_pair(&mut nodes, typing, found, k)?;
    }
    Ok(nodes)
}

/// Appends the object of pair `k` if the pair is at a marked type.
#[inline(always)]
fn take_pair(
    nodes: &mut Vec<usize>,
    typing: &Typing,
    found: &[bool],
    k: usize,
) -> Result<(), Memory>
    requires in_range { k < length typing.now }
    requires so_far { nodes.old.items ≡ marked_objects found.now (take k typing.now) }
    ensures { OnOk result (nodes.new.items ≡ marked_objects found.now (take (k + 1) typing.now)) }
{
    let (object, ty) = typing.get(k);
    if is_marked(found, ty) {
        nodes.push(object as usize)?;
    }
    Ok(())
}

/// Returns true if a type is marked.
#[inline(always)]
pub fn is_marked(found: &[bool], ty: usize) -> bool
    ensures { result ≡ slice_index_or found.now ty false }
{
    ty < found.len() && found[ty]
}
