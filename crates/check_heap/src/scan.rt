//! Linear scan of the heap, which checks every object once, in address order, at the first type at
//! which the object is referenced. Objects that are referenced at a second type are collected for
//! the caller. `scan` returns the type of each object (`IsScanned`, `IsScannedBut`). If the scan
//! cannot decide, `scan` returns the objects checked so far (`AreTaken`). The search that continues
//! after an inconclusive scan is not part of this crate.

mod classed;
mod fitting;
mod listed_objects;
mod notes;
mod number_cells;
mod scan_pairs;
mod second_types;
mod skipped_type;
mod step_counter;
mod straight;
mod taken_objects;
mod type_rows;

pub use classed::Classed;
pub use fitting::fits_type;
pub use number_cells::Cells;
pub use second_types::SecondTypes;
pub use step_counter::Steps;
pub use straight::{Noted, Scanned, scan};
pub use taken_objects::{ScanMismatch, TakenObjects};
pub use type_rows::{Fitting, rows_of};
