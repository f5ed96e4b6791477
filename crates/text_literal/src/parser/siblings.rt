//! Computes for each literal in a list of nodes where the literal ends.

ghost use Rattle.std.specs.Prelude.{◌≡◌, length, IfOk};
ghost use Rattle.text_literal.specs.parser.SubtreeEnds as specs;

use crate::literal_grammar::LiteralNodes;
use base_data::model::Memory;
use std::alloc::Global;

/// Returns the node that is `many` siblings after node `from`.
pub(crate) fn sibling(ends: &[u32], from: usize, many: usize) -> usize
    ensures { result ≡ specs.sibling ends.now from many }
{
    let mut position = from;
    let mut left = many;
    while left > 0 {
        if position >= ends.len() {
            return position;
        }
        position = ends[position] as usize;
        left -= 1;
    }
    position
}

/// Returns, for each node, the index of the node after its last part. Returns `Memory` if an index
/// does not fit into 32 bits.
pub(crate) fn subtree_ends(alloc: Global, nodes: &LiteralNodes) -> Result<Vec<u32>, Memory>
    ensures len { IfOk result (λ ends. length ends.items ≡ length nodes.now) }
    ensures ends { IfOk result (λ ends. specs.AreEnds nodes.now ends.items) }
{
    let mut ends = vec![in alloc; 0u32; nodes.len()]?;
    for i in (0..nodes.len()).rev() {
        let end = sibling(ends.as_slice(), i + 1, nodes.get(i).parts);
        if end >= 1 << 32 {
            return Err(Memory);
        }
        ends[i] = end as u32;
    }
    Ok(ends)
}
