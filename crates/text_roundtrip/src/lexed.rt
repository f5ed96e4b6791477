//! Defines texts that consist of given lexemes, under a condition on the bytes that follow the text
//! (`IsLexed`). The law `texts_are_lexemes` proves that the texts of strings, characters, doubles
//! and integers are one lexeme each. The module contains no code besides a lemma function.

mod laws;

pub use laws::texts_are_lexemes;
