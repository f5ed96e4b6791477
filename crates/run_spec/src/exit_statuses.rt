//! The exit status specification of the commands on values: what each status means in terms of the
//! values of the input, the texts of the files, and the arguments. The crate consists of
//! definitions and one theorem, that the tables are exact (`values_have_exit_statuses`). The crate
//! contains no code that runs.

pub mod laws;
