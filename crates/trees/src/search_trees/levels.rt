//! Groups nodes by height.

ghost use Rattle.std.specs.Prelude.{ℕ, ◌≡◌, ◌<◌, ◌^◌, length, All, Contains, IfOk, OnOk, vec_len};
ghost use Rattle.std.specs.Prelude.{pos};
ghost use Rattle.trees.specs.search_trees.NodeParts as parts;
ghost use Rattle.trees.specs.search_trees.TreeLevels.{AreLevels, AreRising, HasLevel, HasRooms};
ghost use Rattle.trees.specs.search_trees.TreeLevels.{IsWritten, Has};
ghost use Rattle.trees.specs.search_trees.Span.{IsSettled};

use crate::search_trees::element_span::{ElementSpan, SettledNode, settle};
use crate::search_trees::tree_node::node_at;
use base_data::model::Memory;
use marshal_heap::heap::{Heap, NumberedObject};
use std::alloc::Global;

/// Returns the nodes of each height, indexed by height.
pub fn by_height(alloc: Global, heap: &Heap, nodes: &[usize]) -> Result<Vec<Vec<usize>>, Memory>
    requires inside { All (λ o. o < length heap.now) nodes.now }
    requires level { (o : ℕ) → Contains nodes.now o → HasLevel heap.now o }
    ensures { IfOk result (λ levels. AreLevels heap.now nodes.now levels.items) }
{
    let mut levels = Vec::new(alloc);
    for o in nodes {
        write(
            alloc,
            &mut levels,
            level_of(&NumberedObject {
                heap,
                object: *o as u64,
            }),
            *o,
        )?;
    }
    Ok(levels)
}

/// Returns the height of a node. The height must not be negative.
fn level_of(node: &NumberedObject<'_>) -> usize
    requires { HasLevel node.now.heap.now node.now.object }
    ensures level { (parts.node_at node.now.heap.now node.now.object).height ≡ pos result }
    ensures small { result < 2 ^ 62 }
{
    node_at(node).height.unsigned_abs() as usize
}

/// Adds a node to a level.
fn write(alloc: Global, levels: &mut Vec<Vec<usize>>, at: usize, o: usize) -> Result<(), Memory>
    requires { at < 2 ^ 62 }
    ensures { OnOk result (IsWritten levels.old.items at o levels.new.items) }
{
    make_rooms(alloc, levels, at + 1)?;
    levels[at].push(o)?;
    Ok(())
}

/// Appends empty levels until there are `many` levels.
fn make_rooms(alloc: Global, levels: &mut Vec<Vec<usize>>, many: usize) -> Result<(), Memory>
    ensures { OnOk result (HasRooms levels.old.items many levels.new.items) }
{
    for _room in levels.len()..many {
        levels.push(Vec::new(alloc))?;
    }
    Ok(())
}

/// Settles all nodes, level by level.
pub fn settle_all(
    alloc: Global,
    heap: &Heap,
    levels: &[Vec<usize>],
) -> Result<Vec<SettledNode>, Memory>
    requires { AreRising heap.now levels.now }
    ensures many { IfOk result (λ all. vec_len all ≡ length heap.now) }
    ensures settled { IfOk result
        (λ all. (h o : ℕ) → Has levels.now h o → IsSettled heap.now all.items o) }
{
    let none = SettledNode {
        span: ElementSpan {
            least: 0,
            greatest: 0,
        },
        disordered: false,
    };
    let mut all = vec![in alloc; none; heap.count() as usize]?;
    for level in levels {
        settle(heap, level.as_slice(), &mut all);
    }
    Ok(all)
}
