//! Proves that the printed text of each value at a type is a literal that starts as the value. For
//! an integer, an atom and an object without parts, the start determines the whole literal. For a
//! block, the parts are read if the texts of the parts are literals. The lemma function
//! `values_are_literals` states the law in its contract.

mod laws;

pub use laws::values_are_literals;
