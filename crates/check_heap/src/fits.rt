//! Decides whether a value of a heap matches a shape (the representation of a type). If the value
//! matches, reports which of the value's fields have types and whether the value is mutable.
//! `needs_of` promises the result of the specification `fields_of`. `WordConditions` is a fast path
//! that decides the common cases by comparing 64-bit words.

mod kind_fits;
mod needs;
mod word_conditions;

pub use kind_fits::{is_asked, is_mutable};
pub use needs::{Needs, known_needs, needs_of};
pub use word_conditions::{WordConditions, row_of, surely_fits};
