//! Theorems about sound types over well-formed declarations.

ghost use Rattle.types_theory.specs.equality.SoundLaws.{ReachedAreSound, ReachedAreKnownByHash};
ghost use Rattle.types_theory.specs.equality.SoundLaws.{ReplacementsCommute, HeadsCommute};
ghost use Rattle.types_theory.specs.equality.SoundLaws.{VariablesComeThrough};

/// States that every type that a sound type reaches is sound, and that the tags of each reached
/// type are determined by their hashes.
pub fn reached_types_are_sound()
    ensures sound { ReachedAreSound }
    ensures hashed { ReachedAreKnownByHash }
{}

/// States that two operations commute with instantiation: the expansion of an abbreviation at the
/// head, and taking the head of a type.
pub fn heads_commute_with_instances()
    ensures replacements { ReplacementsCommute }
    ensures heads { HeadsCommute }
    ensures variables { VariablesComeThrough }
{}
