//! Writes doubles in texts of values as shortest decimals, and reads decimals back to the same
//! bits.
//!
//! - `decimal`: One double: its decimal (`write_double`), and the decimal that begins a text
//!   (`read_decimal`).
//! - `texts`: A text with its doubles as decimals (`write_decimal_text`), the decimals of a text
//!   (`find_decimals`), the plain text that it stands for (`write_plain_text`), and the positions
//!   in both.
//! - `scripts`: Scripts of edits in which decimals stand for doubles (`read_given_script`).
//! - `decimal_readback`: The text of a value with decimals stands for its plain text.
//!
//! Promises: `doubles_have_one_text`: the text of a double is a function of its bits.
//! `doubles_are_read_back`: reading the text of a double returns the double with all its bits.
//! `write_plain_text` appends the plain text that a text stands for and returns its decimals in
//! order. `given_position` returns the position in the given text for a byte of the plain text.
//! `texts_with_decimals_are_read_back`: the text of a value with its doubles as decimals stands
//! for the plain text of the value, and the plain text stands for itself.
//!
//! Leaves out: the plain text of a double, by its bits (`text_print`), and reading the plain text
//! as a value (`text_roundtrip`). A double that is not finite has no decimal and is printed by its
//! bits.
#![tactic(auto)]

pub mod decimal;
pub mod decimal_readback;
pub mod scripts;
pub mod texts;
