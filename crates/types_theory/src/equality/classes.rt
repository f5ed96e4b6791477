//! Theorems about partition refinement: if classes are split until no split changes a class, the
//! result is the classes of equal types.

ghost use Rattle.types_theory.specs.equality.ClassLaws.{StableClassesAreEqual, SplitsKeepTogether};
ghost use Rattle.types_theory.specs.equality.ClassLaws.{SplitsSettle};
ghost use Rattle.types_theory.specs.equality.ClassLaws.{StartsKeepTogether, PartsAreTypes};
ghost use Rattle.types_theory.specs.equality.ClassLaws.{NumbersAreEqual};
ghost use Rattle.types_theory.specs.equality.ClassLaws.{ClassesAreOfEqualTypes};

/// States that all numbers in one class of a stable partition are equal.
pub fn stable_classes_are_equal()
    ensures { StableClassesAreEqual }
{}

/// States that partition refinement is correct. The initial classes by heads alone do not separate
/// equal numbers. A split of a class by the classes of the parts in its members' heads does not
/// separate equal numbers. After a split, the members of the class that was split are done.
pub fn splits_keep_and_settle()
    ensures start { StartsKeepTogether }
    ensures keep { SplitsKeepTogether }
    ensures settle { SplitsSettle }
{}

/// States that numbers are equal if and only if their types are equal, for heads whose parts are
/// numbers. The classes at the end of the refinement are the classes of equal types.
pub fn classes_are_of_equal_types()
    ensures parts { PartsAreTypes }
    ensures numbers { NumbersAreEqual }
    ensures classes { ClassesAreOfEqualTypes }
{}
