//! The theorems about searches, as contracts of lemma functions.

ghost use Rattle.types_theory.specs.typing.SearchLaws.{FirstMismatchIsLeast, LeastConflictIsLeast};
ghost use Rattle.types_theory.specs.typing.StepLaws.{StepsAreFew};

/// States that a search over objects at types finds the first (least) fault among all paths.
pub fn searches_find_the_least()
    ensures mismatch { FirstMismatchIsLeast }
    ensures conflict { LeastConflictIsLeast }
{}

/// States a bound on the steps of a check. The check visits each object at most once per class, and
/// tests each required field of a visited object once. The bound is one step and, for each class,
/// one step for each object and each field.
pub fn checks_take_few_steps()
    ensures { StepsAreFew }
{}
