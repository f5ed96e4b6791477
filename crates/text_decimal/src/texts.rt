//! Converts texts of values between two notations of doubles: decimals, and the digits of their
//! bits (the plain text). `write_decimal_text` writes decimals, and `write_plain_text` replaces
//! decimals by bits. The law `TextsAreReadBack` proves that `write_plain_text` undoes
//! `write_decimal_text`. Single decimals are in `decimal`.

mod decimal_prefix;
mod decimals;
mod find;
mod laws;
mod plain_texts;
mod texts;

pub use decimals::{Decimal, given_position};
pub use find::{find_decimals, write_plain_text};
pub use laws::{decimals_are_by_lexemes, decimals_stay_on_one_line, texts_are_read_back};
pub use plain_texts::write_plain;
pub use texts::write_decimal_text;
