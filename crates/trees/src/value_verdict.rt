//! Computes the verdict on the sets and maps in a value that has its type: no fault, or the first
//! fault with its path. The law `sound_verdicts_report_search_trees` says that the verdict is
//! `sound` if and only if all sets and maps are search trees.

mod found_nodes;
mod laws;
mod tree_nodes;
mod verdict_printer;
mod verdict_search;

pub use laws::{sound_verdicts_report_search_trees, tables_have_the_verdict, tables_judge_trees};
pub use verdict_printer::write_verdict;
pub use verdict_search::trees;
