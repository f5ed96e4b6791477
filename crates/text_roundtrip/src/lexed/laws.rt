//! The law of texts that are one lexeme. The function does nothing and exists only for its
//! contract.

ghost use Rattle.text_roundtrip.specs.lexed.Laws.{CharactersAreLexemes, DoublesAreLexemes};
ghost use Rattle.text_roundtrip.specs.lexed.Laws.{IntegersAreLexemes};
ghost use Rattle.text_roundtrip.specs.lexed.Laws.{StringsAreLexemes};

/// Proves that the text of a string, a character or a double is one lexeme, whatever bytes follow.
/// The text of an integer is one lexeme if no byte of a name follows.
pub fn texts_are_lexemes()
    ensures strings { StringsAreLexemes }
    ensures characters { CharactersAreLexemes }
    ensures doubles { DoublesAreLexemes }
    ensures integers { IntegersAreLexemes }
{}
