//! The laws of search trees, stated as contracts.

ghost use Rattle.trees.specs.search_trees.Laws.{SoundTreesAreSearchTrees, TreeVerdictsAreOne};

/// States that if a value has its type, then no node has a fault if and only if all sets and maps
/// in the value are search trees. A search tree is finite and balanced, its elements are strictly
/// increasing, and each node stores its correct height.
pub fn sound_trees_are_search_trees()
    ensures { SoundTreesAreSearchTrees }
{}

/// States that each value has exactly one verdict: the first fault, or the number of nodes.
pub fn tree_verdicts_are_one()
    ensures { TreeVerdictsAreOne }
{}
