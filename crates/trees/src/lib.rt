//! Checks that the sets and maps of OCaml's library in a value are well-formed search trees.
//!
//! - `search_trees`: Which types of a table are sets or maps (`tree_types`), and what is wrong with
//!   a list of nodes (`judge`).
//! - `value_verdict`: The verdict on all sets and maps in a value that has its type (`trees`), and
//!   its text (`write_verdict`).
//!
//! The faults of a node are a wrong height, subtrees that differ too much in height, and elements
//! out of order (`TreeKind`). Over all nodes, faults of an earlier kind come first.
//!
//! Promises: `trees` returns the least fault with its path, or the number of nodes, where each
//! object counts once at each class of types (`TreeVerdict`). `judge` returns the first fault of
//! some nodes, or that none has one. `sound_verdicts_report_search_trees`: suppose a value has its
//! type. Its verdict is `sound` if and only if each set and each map in the value is a finite
//! balanced tree. The elements of such a tree increase, and its nodes state their heights.
//! `tree_verdicts_are_one`: each value has exactly one verdict. `tables_have_the_verdict`: the
//! verdict by a table is the verdict by the types of the table.
//!
//! Leaves out: values that do not have the type (`check_heap`), and the command line (`cli_args`).
//! No step searches for cycles: correct heights rule them out.
#![tactic(auto)]

pub mod search_trees;
pub mod value_verdict;
