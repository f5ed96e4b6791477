//! Prints and reads doubles as decimals. `write_double` appends the shortest decimal that reads as
//! the double, with all its bits. `read_decimal` returns the double nearest to a decimal. The laws
//! prove that the text is unique (`DoublesHaveOneText`) and that reading it gives the same bits
//! (`DoublesAreReadBack`).

mod big;
mod decimal_parser;
mod decimal_printer;
mod decimal_search;
mod decimal_text;
mod hint;
mod laws;
mod nearest;
mod raised;
mod reads;
mod shortest;
mod size;

pub use decimal_parser::read_decimal;
pub use decimal_printer::write_double;
pub use laws::{doubles_are_read_back, doubles_have_one_text};
