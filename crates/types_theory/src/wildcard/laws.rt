//! The theorems about hiding, as contracts of lemma functions.

ghost use Rattle.types_theory.specs.wildcard.Wildcard.{WildcardIsWeaker, HeadsAreWildcard};
ghost use Rattle.types_theory.specs.wildcard.Wildcard.{HidingMixesRecords};
ghost use Rattle.types_theory.specs.wildcard.Weaker.{WeakerDeclarationsHaveMore};
ghost use Rattle.types_theory.specs.wildcard.Weaker.{WeakerTablesHaveMore};

/// States that each value with a type over some shapes also has the type over all weaker shapes.
pub fn weaker_shapes_have_more_values()
    ensures declared { WeakerDeclarationsHaveMore }
    ensures numbers { WeakerTablesHaveMore }
{}

/// States that hiding only weakens types. If `_` replaces the bodies of some declared records and
/// variants, then each type keeps all of its values. The head of a type stays the same, unless the
/// head is one of the hidden types. The third clause states which records hiding makes mixed, so
/// that a file may not declare them.
pub fn wildcard_is_weaker()
    ensures heads { HeadsAreWildcard }
    ensures types { WildcardIsWeaker }
    ensures records { HidingMixesRecords }
{}
