//! Directed graphs, as lists of successors indexed by node.

ghost use Rattle.std.specs.Prelude.{◌≡◌, ◌<◌, [], length, slice_index_or};

use base_data::model::list::List;

/// Returns the successors of a node.
pub fn successors(graph: &[List<usize>], node: usize) -> &[usize]
    requires { node < length graph.now }
    ensures { result.now ≡ slice_index_or graph.now node [] }
{
    graph[node].as_slice()
}
