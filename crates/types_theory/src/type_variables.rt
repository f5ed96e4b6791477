//! A theorem about types with variables: a value has a type if and only if the value has every
//! closed instance of the type (`variables_stand_for_all`). The function is a lemma function, whose
//! contract states the theorem.

mod laws;

pub use laws::variables_stand_for_all;
