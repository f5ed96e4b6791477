//! The specification of a run (`RunSpec`). The specification relates the arguments, the files and
//! the input to the written bytes and the exit status, even if I/O operations fail or memory runs
//! out. The crate defines commands in a general form (`Commands`), the conditions that make
//! commands lawful (`AreLawful`), and the account of a run. The main theorems are `promised` and
//! `run_spec_of_commands`. The module contains no code that runs.

mod example;
pub mod laws;
