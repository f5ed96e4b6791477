//! Theorems about tables of types (`Table`). A table decides which values have its types
//! (`tables_decide`). Every value has a type or a fault (`type_or_fault`). The paths of least
//! faults are least paths (`least_faults_have_least_ways`). The functions are lemma functions,
//! whose contracts state the theorems.

mod laws;

pub use laws::{least_faults_have_least_ways, tables_decide, type_or_fault};
