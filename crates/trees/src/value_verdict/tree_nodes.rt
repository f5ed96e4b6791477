//! Collects the nodes of sets and maps among the visits of a value.

ghost use Rattle.std.specs.Prelude.{◌+◌, ◌<◌, length, IfOk, OnOk};
ghost use Rattle.trees.specs.value_verdict.NodeVisits.{AreNodeVisits, IsMarked};

use crate::value_verdict::found_nodes::is_marked;
use base_data::model::Memory;
use check_heap::check::AllMet;
use std::alloc::Global;

/// The nodes of sets and maps: their objects, and the indices of their visits.
#[derive(Drop)]
pub struct TreeNodes {
    pub objects: Vec<usize>,
    pub visits: Vec<usize>,
}

/// Returns the visits at marked types, in order.
pub fn nodes_among(alloc: Global, all: &AllMet, found: &[bool]) -> Result<TreeNodes, Memory>
    ensures { IfOk result (AreNodeVisits (IsMarked found.now) all.now (length all.now)) }
{
    let mut nodes = TreeNodes {
        objects: Vec::new(alloc),
        visits: Vec::new(alloc),
    };
    for k in 0..all.len() {
        take_visit(&mut nodes, all, found, k)?;
    }
    Ok(nodes)
}

/// If visit `k` is at a marked type, appends the visit to the nodes.
fn take_visit(nodes: &mut TreeNodes, all: &AllMet, found: &[bool], k: usize) -> Result<(), Memory>
    requires in_range { k < length all.now }
    requires so_far { AreNodeVisits (IsMarked found.now) all.now k nodes.old }
    ensures { OnOk result (AreNodeVisits (IsMarked found.now) all.now (k + 1) nodes.new) }
{
    let (object, ty) = all.get(k);
    if is_marked(found, ty) {
        nodes.objects.push(object as usize)?;
        nodes.visits.push(k)?;
    }
    Ok(())
}
