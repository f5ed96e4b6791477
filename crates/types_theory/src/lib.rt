//! Theorems about types, typings and faults. The crate has no code that a run executes.
//!
//! - `typing`: The result of a search over objects and types, and the number of steps of a search.
//! - `equality`: Type equality, heads, and the tables of types that a type reaches.
//! - `table`: A value has a type's number in a table if and only if the value has the type.
//! - `type_variables`: Types with variables and their closed instances.
//! - `wildcard`: The effect of hiding declared types behind `_`.
//!
//! Each function does nothing; the contract of the function is the theorem.
//!
//! Promises:
//!
//! - `tables_decide`: A value has a declared type if and only if the value has the type's number in
//!   the table.
//! - `type_or_fault`: A value either has a type of the table or has a fault at the type, and never
//!   both.
//! - `searches_find_the_least`: A mismatch that a search meets after all earlier paths is the least
//!   fault. If the search has covered all paths without a mismatch, the least conflict is the least
//!   fault.
//! - `variables_stand_for_all`: A value has a type if and only if the value has each closed
//!   instance of the type.
//! - `equal_types_mean_the_same`: Equality is an equivalence on the types that a type reaches.
//!   Equal types match the same values, need the same fields at equal types, and agree on
//!   mutability.
//! - `wildcard_is_weaker`: If `_` replaces declared records and variants, each value keeps its
//!   types.
//!
//! Leaves out: the definitions (`types_spec`), and the code that searches (`check_heap`) or builds
//! tables (`types_build`). Many theorems presuppose well-formed declarations and a sound type,
//! which `types_wellformed` establishes for accepted texts. Running time is bounded in steps only
//! (`checks_take_few_steps`).
#![tactic(auto)]

pub mod equality;
pub mod table;
pub mod type_variables;
pub mod typing;
pub mod wildcard;
