//! The laws of texts with doubles as decimals. Each function does nothing and exists only for its
//! contract.

ghost use Rattle.text_decimal.specs.texts.Laws.{DecimalsAreByLexemes, DecimalsStayOnOneLine};
ghost use Rattle.text_decimal.specs.texts.Laws.{DecimalTextsAreReadBack};

/// Proves that decimals replace doubles lexeme by lexeme. A text with a lexical error is unchanged.
pub fn decimals_are_by_lexemes()
    ensures { DecimalsAreByLexemes }
{}

/// Proves that a text on one line stays on one line if its doubles are written as decimals.
pub fn decimals_stay_on_one_line()
    ensures { DecimalsStayOnOneLine }
{}

/// Proves that if a text has no decimals, then printing its doubles as decimals and replacing the
/// decimals gives the text back.
pub fn texts_are_read_back()
    ensures { DecimalTextsAreReadBack }
{}
