//! Laws: if a text breaks no scope rule, then its declarations or its type are well-formed. Each
//! function is a lemma function, which has no effect and exists only for its contract.

ghost use Rattle.types_wellformed.specs.declarations.WellFormedLaws.{FilesAreWellFormed};
ghost use Rattle.types_wellformed.specs.declarations.WellFormedLaws.{NamesMakeSound};
ghost use Rattle.types_wellformed.specs.declarations.WellFormedLaws.{TypesAreSound};

/// States that declarations are well-formed if their text breaks no scope rule.
pub fn files_are_well_formed()
    ensures { FilesAreWellFormed }
{}

/// States that declarations are sound if their text breaks no rule on names.
pub fn names_make_sound()
    ensures { NamesMakeSound }
{}

/// States that a type is sound if its text breaks no scope rule over well-formed declarations.
pub fn types_are_sound()
    ensures { TypesAreSound }
{}
