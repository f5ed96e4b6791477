//! Finds the type mismatch of a value that has exactly one mismatch, directly from the value's
//! bytes, without building a heap. `Seeking::go` reads the bytes in chunks and returns the path to
//! the mismatch. If `Seeking::go` returns a mismatch, the mismatch is the first fault of the value
//! (`IsFound`). If `Seeking::go` returns no mismatch, the result is inconclusive. `found_has_line`
//! proves that the mismatch determines the output line.

mod laws;
mod mismatch;
mod push;
mod reference_targets;
mod second;
mod token_judgement;
mod way;

pub use laws::found_has_line;
pub use mismatch::{Finding, FoundMismatch, SearchEnd, Seeking};
pub use reference_targets::Again;
pub use second::SecondReads;
pub use way::{BlockExpectations, Expectation, Link, Wait, Way};
