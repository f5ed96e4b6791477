//! Proves that the result of verifying a certificate entry does not depend on the choice of the
//! type's table. The laws are `ReachedTypesAreOne`, `AnswersAtAreOne` and `ReachedPairsAreOne`. The
//! module contains only laws.

pub mod laws;
