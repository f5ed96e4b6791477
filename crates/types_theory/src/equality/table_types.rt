//! Theorems about a table of types: what the table states about a number holds for the number's
//! type.

ghost use Rattle.types_theory.specs.equality.TableLaws.{TablesAreLawful, TablesHaveTheFaults};
ghost use Rattle.types_theory.specs.equality.TableLaws.{TablesHaveTheLeastFault};

/// States that, over accepted declarations, a table of the types that a type reaches has lawful
/// shapes.
pub fn tables_are_lawful()
    ensures { TablesAreLawful }
{}

/// States that a value has the same faults, and the same least fault, at a type and at the type's
/// number in the table.
pub fn tables_have_the_faults()
    ensures all { TablesHaveTheFaults }
    ensures least { TablesHaveTheLeastFault }
{}
