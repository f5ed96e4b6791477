//! Prints values: a graph without a type (`dump`), and a value at a type with labels for the
//! objects that occur more than once (`show`). `is_shown` compares a given text with the text of a
//! value without building the value's whole text. The definitions of the texts are in other
//! modules.

mod dumped;
mod ends;
mod flat_text;
mod labels;
mod open_block;
mod print_walk;
mod shown;
mod shown_text;
mod text_until_again;
mod value_printer;
mod visit_order;

pub use dumped::write_dump;
pub use shown::write_shown_at;
pub use shown_text::is_shown;
pub use value_printer::{dump, show};
