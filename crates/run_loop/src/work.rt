//! A command as a value (`Work`), which consumes the input in chunks and writes the output for each
//! item. `run_work` is the only loop over the input, and `run_reported` also reports the exit
//! reason. The contracts of `run_work` and `run_reported` (`Runs`, `HasAccount`) give the account
//! of a run. The loop depends on no type, text or edit.

mod chunk;
mod gathered_output;
mod input_loop;
mod passed_bytes;
mod run_report;
mod work;

pub use chunk::feed_chunk;
pub use gathered_output::feed_some;
pub use input_loop::{LENGTH_LIMIT, new_buffer, run_work};
pub use passed_bytes::PassedBytes;
pub use run_report::{environment_is_known, run_reported};
pub use work::Work;
