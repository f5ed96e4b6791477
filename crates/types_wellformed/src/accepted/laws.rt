//! The theorems about accepted declarations and types, as contracts of lemma functions.

ghost use Rattle.types_wellformed.specs.accepted.Accepted.{AcceptedAreWellFormed};
ghost use Rattle.types_wellformed.specs.accepted.Accepted.{AcceptedTypesAreSound};
ghost use Rattle.types_wellformed.specs.accepted.AcceptedBrackets.{BracketsFollow};
ghost use Rattle.types_wellformed.specs.accepted.AcceptedNames.{NamesFollow};
ghost use Rattle.types_wellformed.specs.accepted.Ranked.{RanksFollow};

/// States that acyclic abbreviations can be ranked: some rank of names decreases from each
/// abbreviation to the names that the abbreviation uses outside tag arguments.
pub fn ranks_follow()
    ensures { RanksFollow }
{}

/// States that names that break no rule are correct, if the lists of occurrences are complete. Each
/// name is known and has as many arguments as the name takes, and each variable is a parameter.
pub fn names_follow()
    ensures { NamesFollow }
{}

/// States that polymorphic variant types that break no rule are correct, if the lists of
/// occurrences are complete and abbreviations have plain heads. A correct polymorphic variant type
/// includes only polymorphic variant types, and its distinct tags have distinct hashes.
pub fn brackets_follow()
    ensures { BracketsFollow }
{}

/// States that declarations that break no rule are well-formed, if the declarations' lists of
/// occurrences are complete.
pub fn accepted_are_well_formed()
    ensures { AcceptedAreWellFormed }
{}

/// States that a type that breaks no rule over well-formed declarations is sound, if the type's
/// list of occurrences is complete.
pub fn accepted_types_are_sound()
    ensures { AcceptedTypesAreSound }
{}
