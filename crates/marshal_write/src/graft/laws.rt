//! Laws over the definitions, stated as contracts of lemma functions.

ghost use Rattle.marshal_write.specs.graft.Laws.{CopiesAreTheSame, OneCopyFollows, CopiesAreClosed};

/// Proves that a copy of a value is the same value in each graph that contains the copy. A copy
/// consists of new objects only. A value has exactly one copy after a given number of objects.
pub fn copies_are_the_same()
    ensures same { CopiesAreTheSame }
    ensures one { OneCopyFollows }
    ensures new { CopiesAreClosed }
{}
