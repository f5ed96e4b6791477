//! The theorem about tables of types, as the contract of a lemma function.

ghost use Rattle.types_table.specs.type_table.Laws.{MadeAreLawful};

/// States that the table of a sound type over well-formed declarations is lawful: values can be
/// checked against the table.
pub fn tables_are_lawful()
    ensures { MadeAreLawful }
{}
