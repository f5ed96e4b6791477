//! Laws on occurrences by the indices of marks. Each function is a lemma function, which has no
//! effect and exists only for its contract.

ghost use Rattle.types_resolve.specs.occurrences.Laws.{TypesAreCounted, FilesAreCounted};

/// States that the tree of a type determines which mark of the type's text belongs to each name,
/// tag, variable and included type.
pub fn types_are_counted()
    ensures { TypesAreCounted }
{}

/// States that declarations determine which mark of their text belongs to each name, tag, variable
/// and included type.
pub fn files_are_counted()
    ensures { FilesAreCounted }
{}
