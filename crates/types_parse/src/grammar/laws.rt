//! Laws of the grammar's definitions. The functions do nothing and exist only for their contracts.

ghost use Rattle.types_parse.specs.grammar.Grammar.{texpr, file_kinds};
ghost use Rattle.types_parse.specs.grammar.Depths.{texpr_ends, file_ends};
ghost use Rattle.types_parse.specs.grammar.Laws.{HasOneTree, IsTextOrSyntax, HasNoSyntax};
ghost use Rattle.types_parse.specs.grammar.Laws.{HasEndsForEach};
ghost use Rattle.types_parse.specs.grammar.Laws.{SyntaxComesFirst, HasOneReading};

/// Proves that the grammar is unambiguous: a list of lexemes is the text of at most one type and of
/// at most one file.
pub fn one_tree()
    ensures types { HasOneTree texpr }
    ensures files { HasOneTree file_kinds }
{}

/// Proves that every list of lexemes either is a text of the grammar or has exactly one position of
/// a syntax error.
pub fn text_or_syntax()
    ensures types { IsTextOrSyntax texpr }
    ensures files { IsTextOrSyntax file_kinds }
{}

/// Proves that a text of the grammar has no syntax error.
pub fn no_syntax_in_texts()
    ensures types { HasNoSyntax texpr }
    ensures files { HasNoSyntax file_kinds }
{}

/// Proves that the list of depths of a tree is as long as the tree's list of lexemes.
pub fn ends_for_each()
    ensures types { HasEndsForEach texpr texpr_ends }
    ensures files { HasEndsForEach file_kinds file_ends }
{}

/// Proves that no lexeme at or after a syntax error counts as too deep.
pub fn syntax_comes_first()
    ensures types { SyntaxComesFirst texpr texpr_ends }
    ensures files { SyntaxComesFirst file_kinds file_ends }
{}

/// Proves that every list of lexemes has exactly one reading: a text, a syntax error, or a type
/// that is too deep.
pub fn one_reading()
    ensures types { HasOneReading texpr texpr_ends }
    ensures files { HasOneReading file_kinds file_ends }
{}
