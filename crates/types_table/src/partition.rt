//! Computes the equivalence classes of equal types by partition refinement. Types are given as
//! numbers, each with a head whose parts are numbers. `classes` promises that two numbers have the
//! same class if and only if they are equal (`AreClasses`). The crate does not know the types
//! themselves.

mod all_classes;
mod class_inspection;
mod head_form;
mod lists;
mod moves;
mod refinement;
mod set;
mod signature;
mod signatures;
mod users;
mod waits;

pub use all_classes::classes;
