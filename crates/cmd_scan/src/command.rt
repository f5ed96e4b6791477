//! Implements the search of the input for values. The search holds the bytes from the first offset
//! at which a value may still begin. When a byte decides what the held bytes begin with, the held
//! bytes are a stretch, and the lines for the stretch are written. The contract of `search_input`
//! states that the run satisfies `Account`.

mod clear;
mod last;
mod search_run;
mod searching;

pub use search_run::search_input;
pub use searching::Searching;
