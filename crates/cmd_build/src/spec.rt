//! The command on the texts of the input, as a command in the general form: an output for a line,
//! exit reasons, and a final reply. Each text is the literal of a value, which becomes bytes. The
//! module consists of definitions and theorems (`building_keeps_run_spec`, `causes_of_texts`), and
//! contains no code that runs.

pub mod laws;
