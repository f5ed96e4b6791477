//! Guesses the value with a given text, by a fast parser for texts that `show` writes. The
//! contracts promise only that the guess is a valid value. To decide whether the guess is right,
//! the caller prints it and compares the texts (`has_text`). The comparison is conclusive if the
//! names of the types are readable (`is_encoded`, law `EncodedAreReadable`).

mod encoded;
mod guess_parser;
mod guess_scanners;
mod guess_start;
mod guess_text;
mod guessed_block;
mod laws;

pub use encoded::is_encoded;
pub use guess_parser::guess;
pub use guess_text::has_text;
pub use laws::encoded_are_readable;
