//! Theorems about searches: a search over objects at types finds the first (least) fault
//! (`searches_find_the_least`) in a bounded number of steps (`checks_take_few_steps`). The
//! functions are lemma functions, whose contracts state the theorems.

mod laws;

pub use laws::{checks_take_few_steps, searches_find_the_least};
