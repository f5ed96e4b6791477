//! Finds where names, tags and variables occur in a text, and checks the rules of scope on names.
//!
//! - `scope`: Declarations that can be looked up by name (`Environment`, `SoundEnvironment`), and
//!   the first rule on names that is broken (`first_break`, `first_break_in_type`).
//! - `occurrences`: The lexeme of each name, tag, variable and included type of a text
//!   (`file_text_sites`, `type_text_site`), and the items of each bracket.
//!
//! The rules of scope are definitions of `types_spec` (`Rule`, after the OCaml manual).
//!
//! Promises:
//!
//! - `first_break`: Returns the first of the seven rules on names that a file breaks, in the order
//!   in which rules are checked, and the least lexeme that breaks the rule. If the file breaks none
//!   of the seven rules, returns `None`.
//! - `first_break_in_type`: Returns the first rule on names that the text of a type breaks, and the
//!   least lexeme that breaks the rule.
//! - `file_text_sites` and `type_text_site`: Return exactly the occurrences in the text.
//! - `Environment::get`: Returns the declaration of a name. `Environment::position` returns the
//!   first position of the name.
//! - `SoundEnvironment::holds`: The declarations of a `SoundEnvironment` are sound, and no
//!   abbreviation is cyclic.
//! - `types_are_counted` and `files_are_counted`: Theorems that relate a tree to the marks of its
//!   text.
//!
//! Leaves out: the rules that need the head of a type, such as conflicting tags
//! (`types_wellformed`), syntax (`types_parse`), and error messages (`types_wellformed`).
#![tactic(auto)]

pub mod occurrences;
pub mod scope;
