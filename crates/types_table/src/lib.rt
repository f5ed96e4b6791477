//! Stores types as numbers, and holds the table of types that a value is checked against.
//!
//! - `store`: Hash-consed types (`Types`): each type once, as a small node over earlier numbers.
//! - `type_table`: The table of the types that a type reaches (`TypeTable`): for each number a
//!   shape over numbers, a class of equal types, names and a text.
//! - `partition`: Computes the classes of equal types by partition refinement (`classes`).
//! - `leaf_fits`: Tests whether integers, atoms and arrays of doubles match a shape (`fits_int`).
//!
//! Promises:
//!
//! - `Types::add_named`, `Types::add_part` and similar functions return the number of a type, and
//!   add the type if it is new. If they return `Memory`, the store is unchanged.
//! - `Types::len` ensures that the stored types are distinct.
//! - `TypeTable::holds`: each table satisfies `IsCheckable`.
//! - `TypeTable::text` returns the text of a type.
//! - `tables_are_lawful`: values can be checked by the table of a sound type over well-formed
//!   declarations.
//! - `classes` returns the classes of types that are given by heads over numbers. Two numbers have
//!   one class if and only if their types are equal.
//!
//! Leaves out: computing heads, shapes and names (`types_build`), the theorem that a table decides
//! what its types decide (`types_theory`), and the check (`check_heap`). A type keeps no source
//! position.
#![tactic(auto)]

pub mod leaf_fits;
pub mod partition;
pub mod store;
pub mod type_table;
