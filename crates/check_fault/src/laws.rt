//! Laws about the texts of faults, as contracts of lemma functions, which do nothing at run time.

ghost use Rattle.check_fault.specs.Laws.{TextsAreOfTypes};

/// Proves that the text of a fault computed from type numbers of a table equals the text computed
/// from the types.
pub fn texts_are_of_types()
    ensures { TextsAreOfTypes }
{}
