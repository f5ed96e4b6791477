//! Proves that the text of a value is read back as the value, for each type that comes from an
//! accepted text, over declarations of an accepted text. The names of such types are lexemes, and
//! each name has one meaning. The main law is `values_are_rebuilt`: the value that is read is
//! isomorphic to the given value, with equal type, text and canonical bytes. Each function is a
//! lemma function, whose contract is a law.

mod laws;

pub use laws::{
    declared_texts_are_read_back, literals_are_read_back, names_are_read_back, values_are_rebuilt,
};
