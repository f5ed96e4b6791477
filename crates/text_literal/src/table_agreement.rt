//! Proves that reading a literal at an index of a type table agrees with reading the literal at the
//! type with this index. The two readings give the same value with the same objects, or refusals
//! that correspond. The lemma function `tables_read_agree` states the law in its contract and does
//! nothing.

mod laws;

pub use laws::tables_read_agree;
