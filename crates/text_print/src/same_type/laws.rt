//! The laws of isomorphic values. Each function does nothing and exists only for its contract.

ghost use Rattle.text_print.specs.same_type.SameText.{DeclaredTextsAreKept, TableTextsAreKept};
ghost use Rattle.text_print.specs.same_type.SameType.{DeclaredTypesAreKept, TableTypesAreKept};
ghost use Rattle.text_print.specs.same_type.SameType.{DeclaredFaultsAreKept, TableFaultsAreKept};
ghost use Rattle.text_print.specs.same_type.SameType.{DeclaredLinesAreKept};

/// Proves that if a value has a type, then every isomorphic value has the type.
pub fn the_same_has_the_same_types()
    ensures declared { DeclaredTypesAreKept }
    ensures table { TableTypesAreKept }
{}

/// Proves that isomorphic values have the same first fault.
pub fn the_same_has_the_same_fault()
    ensures declared { DeclaredFaultsAreKept }
    ensures table { TableFaultsAreKept }
{}

/// Proves that isomorphic values have the same `no` line.
pub fn the_same_has_the_same_line()
    ensures { DeclaredLinesAreKept }
{}

/// Proves that isomorphic values have the same text at a type.
pub fn the_same_has_the_same_text()
    ensures declared { DeclaredTextsAreKept }
    ensures table { TableTextsAreKept }
{}
