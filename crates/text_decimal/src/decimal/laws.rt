//! The laws of doubles as decimals. Each function does nothing and exists only for its contract.

ghost use Rattle.text_decimal.specs.decimal.Laws.{DoublesAreReadBack, DoublesHaveOneText};

/// Proves that a double has exactly one text, which is a function of its bits.
pub fn doubles_have_one_text()
    ensures { DoublesHaveOneText }
{}

/// Proves that reading a double's text gives the same double, with all its bits.
pub fn doubles_are_read_back()
    ensures { DoublesAreReadBack }
{}
