//! The theorems about tables, as contracts of lemma functions.

ghost use Rattle.types_theory.specs.table.LeastWays.{LeastFaultsHaveLeastWays};
ghost use Rattle.types_theory.specs.table.TableDecides.{TheRootIsFirst, TablesDecide, TypeOrFault};
ghost use Rattle.types_theory.specs.table.TableDecides.{NeverBoth};

/// States that checking against a table is exact. A value has a declared type if and only if the
/// value has the type's number in the table. The type for which the table was made has the number
/// 0.
pub fn tables_decide()
    ensures root { TheRootIsFirst }
    ensures decide { TablesDecide }
{}

/// States that a value either has a declared type of the table or has a fault at the type. No value
/// has both the type and a fault at the type.
pub fn type_or_fault()
    ensures one { TypeOrFault }
    ensures never_both { NeverBoth }
{}

/// States that each path of the first (least) fault, without the path's last step, is the least
/// path to an object at a type.
pub fn least_faults_have_least_ways()
    ensures { LeastFaultsHaveLeastWays }
{}
