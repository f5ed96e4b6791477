//! Proves that the text of a value with its doubles printed as decimals is read back as the value.
//! The plain text of the text with decimals is the text of the value, because no lexeme of a
//! literal continues into a decimal. The lemma functions state the laws in their contracts and do
//! nothing.

mod laws;

pub use laws::{texts_of_literals_are_apart, texts_with_decimals_are_read_back};
