//! Theorems about values with exactly one type mismatch. If only one trail leads to the mismatch,
//! then the mismatch is the first (least) fault (`one_missed_prefixes`). The tool can report such a
//! mismatch without building a heap (`missed_has_line`). The functions are lemma functions, whose
//! contracts state the theorems.

mod laws;

pub use laws::{
    missed_has_line, one_missed_prefixes, only_mismatches_are_least, only_missed_is_least,
};
