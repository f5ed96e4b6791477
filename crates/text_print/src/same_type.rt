//! Laws about isomorphic values: isomorphic values have the same types, the same first fault and
//! the same text. Two values are isomorphic (`Isomorphism`) if they are equal up to the numbering
//! of objects. A report about a value that was read therefore also holds for the value that is
//! written. The module contains only lemma functions.

mod laws;

pub use laws::{
    the_same_has_the_same_fault, the_same_has_the_same_line, the_same_has_the_same_text,
    the_same_has_the_same_types,
};
