//! Laws about the texts of values. Each function does nothing and exists only for its contract.

ghost use Rattle.text_print.specs.show.Laws.{MoreIsTheSame, MoreIsTheSameByNumbers};
ghost use Rattle.text_print.specs.show.Laws.{NoNameIsMissing};
ghost use Rattle.text_print.specs.show.Laws.{NoNameIsMissingInParts, RootsShowAgree};
ghost use Rattle.text_print.specs.show.Laws.{TablesShowAgree};

/// Proves that a value, and each part of the value, has the same text at a number of a table as at
/// the type with the number.
pub fn tables_show_agree()
    ensures { TablesShowAgree }
{}

/// Proves that a value has one text at number 0 of a table and at the type for which the table was
/// made. Each part of the value also has one text at its number and at its type.
pub fn roots_show_agree()
    ensures { RootsShowAgree }
{}

/// Proves that no text is truncated: a larger bound on nested values gives the same chunks.
pub fn more_is_the_same()
    ensures types { MoreIsTheSame }
    ensures numbers { MoreIsTheSameByNumbers }
{}

/// Proves that no name is missing. If a value matches a type's representation, the names of all
/// constructors, tags and fields in the value's text exist. If the value has a sound type, the
/// names in the texts of the value's parts exist too.
pub fn no_name_is_missing()
    ensures fitting { NoNameIsMissing }
    ensures parts { NoNameIsMissingInParts }
{}
