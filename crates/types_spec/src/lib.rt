//! The definition of OCaml types as far as a value can be checked against a type.
//!
//! The crate holds data and definitions; only `Ty`, `hash` and the table of predeclared types have
//! code. Representations follow `mlvalues.h`, and the definition of typing follows Henry, Mauny,
//! Chailloux and Manoury (2012).
//!
//! - `types`: Declarations (`Decl`), type expressions (`Ty`), heads and shapes (`HeadOf`,
//!   `ShapeOf`), and type equality (`Equal`). Also when a value has a type (`HasType`), faults and
//!   the least fault (`IsFault`, `IsLeastFault`), and the rules of scope (`Rule`). Also the table
//!   of reached types (`Table`), and the texts of types and verdicts.
//! - `tag_hash`: The hash of a polymorphic variant's tag, as `caml_hash_variant` computes the hash.
//!
//! A value has a type if there is a finite list of pairs of an object and a type. The list must
//! contain the root's pair, be closed, and give each mutable object one type. The least fault is
//! the type mismatch with the least path. If there is no type mismatch, the least fault is the
//! least aliasing conflict. Paths are ordered by length, then lexicographically.
//!
//! Promises: `hash` returns `tag_hash` of the tag, without its backquote. `Ty::of` and `Ty::nodes`
//! convert between a type and its nodes. `predeclared`, `arity`, `sum` and `name` return what the
//! definitions state about a predeclared name or about a row of the table of predeclared types. No
//! function of the crate decides any of the other definitions.
//!
//! Leaves out: theorems about these definitions (`types_theory`), syntax (`types_parse`), code for
//! equality and representations (`types_table`, `types_build`), and the check of a value
//! (`check_heap`). The definitions cover only the OCaml types that the declaration language can
//! declare.
#![tactic(auto)]

pub mod tag_hash;
pub mod types;
