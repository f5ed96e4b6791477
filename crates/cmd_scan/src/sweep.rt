//! Searches buffered bytes for values: reads part after part, appends a line for each value, and
//! skips bytes at which no value begins. The contract of `sweep` states which parts the bytes
//! determine (`Sweeps`). `sweep` returns the reader that has taken the remaining bytes. The
//! contract of `sweep_all` states all parts if no more bytes follow (`SweepsAll`). The definition
//! of parts and lines is in `found`.

mod claim;
mod input_parts;
mod kind_text;
mod next_part;
mod position_line;

pub use input_parts::{Swept, sweep, sweep_all};
pub use position_line::write_value;
