//! Laws of equality of declared types: heads (`equal`), sound types (`sound`), partition refinement
//! (`classes`) and tables of types (`table`). The functions are lemma functions: they do nothing
//! and exist only for their contracts.

pub mod classes;
pub mod equal;
pub mod sound_types;
pub mod table_types;
