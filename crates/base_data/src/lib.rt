//! Plain data that the other crates share: values and objects of a graph, token codes, headers,
//! paths.
//!
//! The crate uses no other crate of the repository.
//!
//! - `model`: The values (`Val`) and objects (`Obj`) of a graph, token codes (`CodeKind`), headers
//!   (`Head`), read refusals (`ReadRefusal`) and paths (`Path`). Also the owned list `List`, the
//!   memory error `Memory`, and integers decoded from bytes as in `intern.c`.
//! - `lines`: The line and column of a byte of a text (`spot_of`), and how a position is printed
//!   (`Positions`).
//! - `text`: Appends bytes, numbers and paths to a text (`write`, `write_number`, `write_path`).
//!
//! The definitions state when objects form a graph (`IsGraph`) and when a value belongs to a graph
//! (`IsValue`).
//!
//! Promises: `big_endian`, `little_endian` and `signed` return the number that the bytes encode.
//! `List::push` and `Path::push` leave the list unchanged if they return `Memory`.
//! `lines_report_positions`: at most one position of a text has a given line and column.
//! `first_lines_count`: if no line feed comes before a position, the position is in line 1, and its
//! column is its byte index plus one.
//!
//! Leaves out: how values are encoded (`marshal_spec`), how a graph is stored (`marshal_heap`), and
//! the types of values (`types_spec`). A column counts bytes, not characters. No contract states
//! when memory runs out.
#![tactic(auto)]

pub mod lines;
pub mod model;
pub mod text;
