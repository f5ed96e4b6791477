//! The theorem that `build` turns the output of `show` back into the values; it has no code of a
//! run.
//!
//! The crate owns the definition of two calls of which the second reads what the first wrote.
//! `Shows` states what is known of the first call, `Builds` what is known of the second call, and
//! `WritesCanonical` what follows for the second call.
//!
//! Promises:
//!
//! - `shown_texts_are_built`: suppose a call of `show` prints all values of an input without
//!   errors, each on one line. Suppose a call of `build` has the same FILE and TYPE, and the
//!   printed lines as input. Then `build` writes the canonical bytes of the values in their order,
//!   and ends without errors.
//! - `all_commands_build_shown_texts`: the theorem for two calls of the whole program.
//!
//! Conditions: if `show` printed decimals, then `build` reads decimals. In the call of `build`, no
//! I/O call fails and memory does not run out. No type that TYPE reaches is `_`.
//!
//! Leaves out: texts over several lines, single parts of values (`get`), the theorem about one text
//! (`text_roundtrip`), and bytes that are not canonical. If the input of `show` is not canonical,
//! then `build` writes the canonical bytes of the values, not the bytes of the input.
#![tactic(auto)]

pub mod laws;
