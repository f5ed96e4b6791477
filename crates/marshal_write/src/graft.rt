//! Copies a value from one heap to the end of another heap. `append_copy` promises that the copy is
//! the same value, with its sharing and cycles, and refers to new objects only (`HasCopy`). If
//! memory runs out, the heap is unchanged.

mod blank;
mod copy;
mod fill;
mod laws;
mod write_order;

pub use copy::append_copy;
pub use laws::copies_are_the_same;
