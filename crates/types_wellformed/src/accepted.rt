//! Theorems that connect the scope rules to well-formedness. Declarations that break no rule are
//! well-formed (`accepted_are_well_formed`), and a type that breaks no rule is sound
//! (`accepted_types_are_sound`). The functions are lemma functions, whose contracts state the
//! theorems.

mod laws;

pub use laws::{
    accepted_are_well_formed, accepted_types_are_sound, brackets_follow, names_follow, ranks_follow,
};
