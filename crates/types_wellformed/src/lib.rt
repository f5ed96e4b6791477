//! Decides if a text of declarations, or of a type, is accepted. If a text is refused, reports the
//! first error of the text.
//!
//! - `brackets`: Tags in brackets that have conflicting arguments or the same hash
//!   (`least_conflict`, `least_collision`).
//! - `head_rules`: The rules of scope that need the heads of types (`first_head_break`).
//! - `accepted`: Theorems that texts without a broken rule are well-formed.
//! - `declarations`: All stages from a text to declarations or a type (`read_decls`, `read_type`),
//!   the errors (`DeclFault`) and their messages (`fault_text`).
//!
//! Promises:
//!
//! - `read_decls`: Returns the declarations of the text, which are well-formed, or the one error of
//!   the text.
//! - `read_type`: Returns the type of the text, which is sound over the declarations, or the one
//!   error of the text.
//! - The order of errors: Lexical errors come first, then errors of syntax and depth, then broken
//!   rules of scope in the order of the rules.
//! - `one_answer`: A text has at most one answer.
//! - `accepted_are_well_formed`: Declarations that break no rule are well-formed, if their
//!   occurrences are known.
//! - `accepted_types_are_sound`: A type that breaks no rule over well-formed declarations is sound,
//!   if its occurrences are known.
//!
//! Leaves out: the rules on names (`types_resolve`), representations (`types_build`), and the table
//! of the types that a type reaches (`types_build`). If memory runs out, no answer is promised.
#![tactic(auto)]

pub mod accepted;
pub mod brackets;
pub mod declarations;
pub mod head_rules;
