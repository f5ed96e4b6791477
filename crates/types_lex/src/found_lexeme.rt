//! The results of lexing the start of a text.

use crate::lexeme::LexemeKind;

/// The kind and the length in bytes of a lexeme at the start of a text.
#[derive(Drop)]
pub struct FoundLexeme {
    pub kind: LexemeKind,
    pub len: usize,
}

/// One step of the lexer: a separator or a comment (`Gap`, with its length in bytes), or a lexeme
/// (`Word`).
#[derive(Drop)]
pub enum LexStep {
    Gap(usize),
    Word(FoundLexeme),
}
