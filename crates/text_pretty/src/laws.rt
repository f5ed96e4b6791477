//! Laws on pretty-printed texts, and worked examples. Each function is a lemma function: it does
//! nothing at run time, and its contract is the law.

ghost use Rattle.text_pretty.specs.Laws.{PrettyIsPlain, PrettyIsShort};
ghost use Rattle.text_pretty.specs.Narrow.{PrettyIsNarrow};
ghost use Rattle.text_pretty.specs.TextParts.{PartsAreRegular};
ghost use Rattle.text_pretty.specs.WorkedLines.{WorkedLineRows};

/// Suppose the plain text has one line. If the line feeds of the pretty text are removed, with the
/// blanks after each line feed, then the plain text remains. The pretty text has at most 42 times
/// as many bytes.
pub fn pretty_is_plain()
    ensures plain { PrettyIsPlain }
    ensures short { PrettyIsShort }
{}

/// A text is regular if its brackets occur as in the texts of values. In the pretty text of a
/// regular text, a line of more than 80 bytes has no position at which it could be broken.
pub fn lines_are_narrow()
    ensures { PrettyIsNarrow }
{}

/// Texts built from words, labels, brackets and separators are regular.
pub fn parts_are_regular()
    ensures { PartsAreRegular }
{}

/// The definitions give the expected texts for worked examples.
pub fn pretty_of_worked_texts()
    ensures { WorkedLineRows }
{}
