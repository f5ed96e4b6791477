//! The laws of this module. A lemma function does nothing at run time: its contract is a law.

ghost use Rattle.cert_verify.specs.table_independence.ReachedTypes.{ReachedTypesAreOne};
ghost use Rattle.cert_verify.specs.table_independence.ReachedTypes.{AnswersAtAreOne};
ghost use Rattle.cert_verify.specs.table_independence.ReachedTypes.{ReachedPairsAreOne};

/// The list of the types that a type reaches is unique.
pub fn types_are_one_list()
    ensures { ReachedTypesAreOne }
{}

/// A certificate entry at a type has one answer for all tables of the type.
pub fn tables_verify_agree()
    ensures { AnswersAtAreOne }
{}

/// The pairs that paths reach at a type are one list for all tables of the type.
pub fn tables_reach_agree()
    ensures { ReachedPairsAreOne }
{}
