//! Represents a literal as its nodes and its lexemes.

ghost use Rattle.std.specs.Prelude.{◌≡◌, ◌+◌, ◌<◌, ◌^◌, length};
ghost use Rattle.text_literal.specs.parser.LiteralAnswers.{byte_of as first_byte};
ghost use Rattle.text_literal.specs.literal_grammar.Literal.{label_kinds};

use crate::literal_grammar::{LiteralNode, LiteralNodes};
use types_lex::Lexemes;
use types_table::type_table::TypeTable;

/// The input for reading the parts of a literal.
#[derive(Clone, Copy)]
pub struct LiteralText<'a> {
    pub table: &'a TypeTable,
    pub lexemes: &'a Lexemes<'a>,
    pub nodes: &'a LiteralNodes,
    /// For each node, the index of the node after its last part.
    pub ends: &'a [u32],
    /// The byte offset of the end of the text.
    pub end: usize,
}

/// Returns the byte offset at which lexeme `k` begins, or `end` if there is no lexeme `k`.
pub fn byte_of(lexemes: &Lexemes, end: usize, k: usize) -> u64
    ensures { result ≡ first_byte lexemes.now end k }
{
    match lexemes.first(k) {
        Some(first) => first as u64,
        None => end as u64,
    }
}

/// Returns the index of the first lexeme of a literal that follows the literal's label.
#[inline(always)]
pub fn plain_first(node: &LiteralNode) -> usize
    requires { node.now.first < 2 ^ 63 }
    ensures { result ≡ node.now.first + length (label_kinds node.now.label) }
{
    match node.label {
        Some(_) => node.first + 3,
        None => node.first,
    }
}
