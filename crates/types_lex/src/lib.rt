//! Splits a text of declarations, a type, a literal or a script line into lexemes.
//!
//! The crate owns `Lexeme` with its `LexemeKind` and `LexemeSpan`, the lexical errors (`LexFault`),
//! and the list `Lexemes`. The crate also defines which lexemes a text has (`Lexes`) and which
//! error (`Faults`). Words, strings, characters, integers and symbols follow the lexical
//! conventions of the OCaml manual. This project defines two further things: `$` with sixteen
//! digits for a double, and that the content of a comment is not inspected.
//!
//! Promises: `tokens` returns the lexemes of a text in order, or the first lexical error from the
//! left. `one_outcome`: Each text has lexemes or one error, and exactly one of these outcomes.
//! `next_lexeme` returns the next lexeme at or after a position, or `None` at the end of the text.
//! `next_brief` returns the lexeme of `next_lexeme`, but a name or a string may lack its content.
//! `see_lexemes` checks that a text consists of lexemes from a position to the end. All spans are
//! non-empty, in order, and within the text.
//!
//! Leaves out: the grammars of types and declarations (`types_parse`) and of literals
//! (`text_literal`), line and column of a position (`base_data`), and lexemes of OCaml that none of
//! these grammars uses. If memory runs out, no outcome is promised.
#![tactic(auto)]

mod brief;
pub mod character_classes;
mod characters;
mod comments;
mod found_lexeme;
pub mod lexeme;
mod lexemes;
mod lexer;
mod name_lexer;
mod next;
mod numbers;
mod symbols;

pub use brief::next_brief;
pub use found_lexeme::{FoundLexeme, LexStep};
pub use lexemes::Lexemes;
pub use lexer::{one_outcome, step_at, tokens};
pub use next::{next_lexeme, see_lexemes};
