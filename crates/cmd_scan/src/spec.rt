//! The specification of the command `scan` in the general form of `Commands`: the command reports
//! the positions of values among other bytes. `searching_reports_positions` proves that the output
//! is the lines of these positions. `causes_of_searching` proves the meaning of the exit statuses.
//! The module contains only definitions and laws.

pub mod laws;
