//! Reads lines of text as values of a type. The law `one_text_answer` says that each line has
//! exactly one answer. The law `texts_are_read_again` says that the text of a value is read as the
//! value.

mod laws;
mod text_reader;

pub use laws::{one_text_answer, texts_are_read_again};
pub use text_reader::{TextFault, read_text};
