//! The laws of rebuilding values from texts, stated as contracts.

ghost use Rattle.text_roundtrip.specs.rebuild.Laws.{DeclaredTextsAreReadBack, LiteralsAreReadBack};
ghost use Rattle.text_roundtrip.specs.rebuild.Laws.{NamesAreReadBack};
ghost use Rattle.text_roundtrip.specs.rebuild.Rebuilt.{ValuesAreRebuilt};

/// States that if a type and its declarations come from accepted texts, then the names of each type
/// that the type reaches can be read back. No reached type may be `_`.
pub fn names_are_read_back()
    ensures { NamesAreReadBack }
{}

/// States that if a type and its declarations come from accepted texts, then the text of a value of
/// the type is read as the value.
pub fn declared_texts_are_read_back()
    ensures { DeclaredTextsAreReadBack }
{}

/// Suppose a type and its declarations come from accepted texts. Then the text of a value is read
/// as the value at type 0 of the type's table. A program reads texts at type 0 of a table.
pub fn literals_are_read_back()
    ensures { LiteralsAreReadBack }
{}

/// States that if a type and its declarations come from accepted texts, then the text of any value
/// of the type is read as an isomorphic value. The new value has the type, the text of the old
/// value, and the old canonical bytes.
pub fn values_are_rebuilt()
    ensures { ValuesAreRebuilt }
{}
