//! Theorems about hiding: if wildcards (`_`) replace a declared type everywhere, the check becomes
//! weaker, and each value keeps its types. The functions are lemma functions, whose contracts state
//! the theorems.

mod laws;

pub use laws::{weaker_shapes_have_more_values, wildcard_is_weaker};
