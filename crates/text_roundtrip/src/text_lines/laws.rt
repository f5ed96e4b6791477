//! The laws of reading lines of text. Each function is a lemma function, which does nothing and
//! whose contract is a law.

ghost use Rattle.std.specs.Prelude.{ℕ, List};
ghost use Rattle.types_table.specs.declared.type_table.tabled.Tabled.{Tabled};
ghost use Rattle.text_roundtrip.specs.text_lines.Laws.{TextsAreReadAgain};
ghost use Rattle.text_roundtrip.specs.text_lines.TextAnswers.{HasOneTextAnswer};

/// States that each line has exactly one answer: the line is blank, is a value with its objects, or
/// has a fault.
pub fn one_text_answer()
    ensures { (table : Tabled) (line : List ℕ) → HasOneTextAnswer table line }
{}

/// States that the text of a value at type 0 of a table is read as the value. The names of all
/// types of the table must be readable.
pub fn texts_are_read_again()
    ensures { TextsAreReadAgain }
{}
