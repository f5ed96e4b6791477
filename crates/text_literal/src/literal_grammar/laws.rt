//! Laws of the grammar's definitions. Each function here does nothing and exists only for its
//! contract.

ghost use Rattle.std.specs.Prelude.{length};
ghost use Rattle.types_parse.specs.grammar.Laws.{HasOneTree, IsTextOrSyntax, HasNoSyntax};
ghost use Rattle.text_literal.specs.literal_grammar.Literal.{Literal, literal_kinds};
ghost use Rattle.text_literal.specs.literal_grammar.LiteralNodes.{FirstsBelow, literal_nodes};
ghost use Rattle.text_literal.specs.literal_grammar.WorkedTrees.{WorkedTreeRows};

/// Proves that the grammar is unambiguous: a list of lexemes is the text of at most one literal.
pub fn one_literal()
    ensures { HasOneTree literal_kinds }
{}

/// Proves that every list of lexemes is a literal or has exactly one position of a syntax error,
/// and never both.
pub fn literal_or_syntax()
    ensures either { IsTextOrSyntax literal_kinds }
    ensures not_both { HasNoSyntax literal_kinds }
{}

/// Proves that the first lexeme of each node of a literal is one of the literal's own lexemes.
pub fn firsts_in_range()
    ensures { (v : Literal) → FirstsBelow (length (literal_kinds v)) (literal_nodes 0 v) }
{}

/// Proves that the example literals have the expected lexemes and that the parsing table reads
/// these lexemes.
pub fn worked_literals()
    ensures { WorkedTreeRows }
{}
