//! Applies one edit to a value at its type: a literal or a copy from another value, at a path.
//!
//! The crate owns the definition of an edit, and the reasons for which an edit is refused
//! (`EditRefusal`). The crate also owns the locations that an edit can change (`Location`), and the
//! text of a refusal (`refusal_text`).
//!
//! Promises:
//!
//! - `apply` makes the edit, or returns why the edit is refused. After a refusal, the value is
//!   unchanged.
//! - `graft` writes a copy of the part at a path of another value, or returns why the graft is
//!   refused. After a refusal, the value is unchanged.
//! - `edits_have_one_answer` and `grafts_have_one_answer`: an edit or a graft has at most one
//!   answer.
//! - `grafts_are_the_same`: the copy is isomorphic to the part that was copied and consists of new
//!   objects only. The whole value has its type afterwards.
//! - `tables_edit_agree`: edits by a table of types correspond to edits by the types.
//! - `edits_leave_wildcards`: an edit or a graft leaves each object unchanged to which no path
//!   leads. So objects that only wildcards reach are unchanged.
//! - `worked_edits_are_made`: worked examples have the expected values or refusals.
//!
//! Leaves out: parsing scripts (`text_path`), literals (`text_literal`), and writing the result
//! (`marshal_write`). The order of a script's lines and the command `edit` are in `session`. The
//! crate does not promise that the heap drops objects to which nothing refers after an edit.
#![tactic(auto)]

mod edit;
mod edit_refusal;
mod grafting;
mod laws;
mod refusal_printer;
mod spots;

pub use edit::apply;
pub use edit_refusal::{EditRefusal, EditSide};
pub use grafting::graft;
pub use laws::{
    edits_have_one_answer, edits_leave_wildcards, grafts_are_the_same, grafts_have_one_answer,
    tables_answer_lines_agree, tables_edit_agree, tables_graft_agree, worked_edits_are_made,
};
pub use refusal_printer::{literal_text, refusal_text};
pub use spots::{Location, TypedLocation};
