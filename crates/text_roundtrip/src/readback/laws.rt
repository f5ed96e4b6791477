//! The law of reading back the text of a value, stated as a contract.

ghost use Rattle.text_roundtrip.specs.readback.Laws.{TextsAreReadBack};

/// Suppose the value of a tree has a type whose names can be read back. Then the value's text is
/// one line whose lexemes are a literal. The literal is read as the value, with the objects in the
/// order of the tree.
pub fn texts_are_read_back()
    ensures { TextsAreReadBack }
{}
