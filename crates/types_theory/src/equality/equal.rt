//! Theorems about the heads of declared types, and consequences of the equality of types.

ghost use Rattle.types_theory.specs.equality.EqualLaws.{ReplacementsLeaveTheHead};
ghost use Rattle.types_theory.specs.equality.EqualLaws.{HeadsAreAsWritten};
ghost use Rattle.types_theory.specs.equality.EqualLaws.{OnlyTheHead};
ghost use Rattle.types_theory.specs.equality.EqualLaws.{ReachedAreLawful};

/// States the two laws of heads over accepted declarations. The expansion of an abbreviation at the
/// head of a type does not change the type's head. If no abbreviation is at the head of a type, the
/// head of the type is the written head. Only `head` satisfies the two laws.
pub fn heads_are_found()
    ensures replaced { ReplacementsLeaveTheHead }
    ensures written { HeadsAreAsWritten }
    ensures only { OnlyTheHead }
{}

/// States that equality is an equivalence relation on the types that a type reaches, and that equal
/// types have the same meaning.
pub fn equal_types_mean_the_same()
    ensures { ReachedAreLawful }
{}
