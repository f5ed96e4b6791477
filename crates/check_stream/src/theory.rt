//! Soundness of the streaming check, which types a value while reading each token once. If the
//! tokens satisfy their requirements and no position is open at the end, the value has the type
//! (`passes_type_prefixes`). The function is a lemma function, whose contract states the theorem.

mod laws;

pub use laws::passes_type_prefixes;
