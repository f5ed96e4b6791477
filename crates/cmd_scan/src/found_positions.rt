//! The specification of the positions that `scan` reports: the positions of values in an input, the
//! bytes at which no value begins, and the lines for the positions. The laws `one_list` and
//! `positions_of_all` show that the list of positions is unique and covers all values. The module
//! contains only definitions and laws.

pub mod laws;
