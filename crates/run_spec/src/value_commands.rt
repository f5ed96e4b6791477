//! The commands that read values, as commands in the general form. A command has the files that it
//! requests, an output for a value, exit reasons, and a final reply. The crate consists of
//! definitions and theorems (`commands_are_lawful`, `commands_keep_run_spec`), and contains no code
//! that runs.

pub mod laws;
