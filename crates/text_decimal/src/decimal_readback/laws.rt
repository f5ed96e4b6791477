//! The laws of reading back texts with decimals, stated as contracts.

ghost use Rattle.text_decimal.specs.decimal_readback.Laws.{LiteralsAreApart};
ghost use Rattle.text_decimal.specs.decimal_readback.Laws.{TextsWithDecimalsAreReadBack};

/// States that if the lexemes of a text are a literal, then no lexeme contains a decimal, however
/// the text is written.
pub fn texts_of_literals_are_apart()
    ensures { LiteralsAreApart }
{}

/// States that the text of a value is its own plain text, and is the plain text of the text with
/// decimals.
pub fn texts_with_decimals_are_read_back()
    ensures { TextsWithDecimalsAreReadBack }
{}
