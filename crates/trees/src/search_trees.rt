//! Checks sets and maps of OCaml's standard library as search trees: their heights, their balance
//! and their order. The law `sound_trees_are_search_trees` says that a value has no fault if and
//! only if all sets and maps in the value are search trees. The law `tree_verdicts_are_one` says
//! that each value has exactly one verdict.

mod element_order;
mod element_span;
mod fault_sweep;
mod judging;
mod laws;
mod levels;
mod set_and_map_types;
mod tree_node;
mod tree_verdict;

pub use judging::{NodesVerdict, judge};
pub use laws::{sound_trees_are_search_trees, tree_verdicts_are_one};
pub use set_and_map_types::{NodeRepresentation, tree_types};
pub use tree_node::{TreeKind, TreeNode};
pub use tree_verdict::TreeVerdict;
