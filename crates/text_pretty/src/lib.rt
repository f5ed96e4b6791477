//! Breaks the text of a value into lines of 80 columns.
//!
//! The crate owns the definition of the broken text (`pretty`), which depends only on the plain
//! text. The crate also owns the printer `write_pretty`, which reads the plain text byte by byte.
//!
//! Promises:
//!
//! - `write_pretty` appends exactly `pretty` of the plain text.
//! - `pretty_is_plain`: if the line feeds of the broken text are removed, with the blanks after
//!   each line feed, then the plain text remains. The broken text has at most 42 times as many
//!   bytes as the plain text.
//! - `lines_are_narrow`: suppose the brackets of a text are nested as in the text of a value. Then
//!   a line of more than 80 bytes has no position at which it could be broken.
//! - `parts_are_regular`: in texts made of words, labels, brackets and separators, brackets are
//!   nested as in the text of a value.
//! - `pretty_of_worked_texts`: the broken texts of examples are as expected. The expected texts
//!   were worked out independently of the definitions.
//!
//! Leaves out: the plain text (`text_print`), and the option that asks for broken lines
//! (`cli_args`). Columns are bytes, not characters. The crate does not promise that the layout is
//! the shortest.
#![tactic(auto)]

mod break_point;
mod broken_bracket;
mod fit;
mod laws;
mod layout;
mod pretty;

pub use laws::{lines_are_narrow, parts_are_regular, pretty_is_plain, pretty_of_worked_texts};
pub use pretty::write_pretty;
