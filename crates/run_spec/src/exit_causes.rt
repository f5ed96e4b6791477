//! The exit status specification of commands whose statuses are given by tables (`Tables`): what
//! causes each status, and when a status must be returned. The specification `Causes` is stated
//! once for all sets of commands. The crate consists of definitions and theorems
//! (`causes_of_tables`), and contains no code that runs.

pub mod laws;
