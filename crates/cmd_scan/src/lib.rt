//! The command `scan`: finds the marshalled values in any input and prints their positions.
//!
//! - `found_positions`: The definition of the positions of values in an input, from left to right
//!   (`ArePositions`).
//! - `spec`: The specification of the command (`searching`), which needs no file and no type.
//! - `sweep`: Reads buffered bytes part by part and prints a line for each value (`sweep`,
//!   `sweep_all`).
//! - `command`: The implementation of the command (`search_input`, `Searching`), which holds the
//!   bytes from the first offset at which a value may still begin.
//!
//! Promises:
//!
//! - `one_list`: under each limit each input has one list of positions.
//! - `positions_of_all`: at each position a value is encoded, and positions do not overlap. Each
//!   value that is encoded at another offset begins inside a position of the list.
//! - `searching_reports_positions`: the lines printed for a whole input are the lines of its list
//!   of positions.
//! - `search_input` returns with an account of the call by the specification, and leaves the files
//!   unchanged.
//! - `searching_has_exit_statuses`: the tables of exit statuses are exact.
//! - `causes_of_searching`: each status has its cause, and the statuses 1, 3, 4, 5, 8, 11 and 12
//!   never occur.
//!
//! Leaves out: reading a value (`marshal_read`) and its type (`check_heap`). Bytes that belong to
//! no value are not printed. A value inside another value has no line of its own.
#![tactic(auto)]

pub mod command;
pub mod found_positions;
pub mod spec;
pub mod sweep;
