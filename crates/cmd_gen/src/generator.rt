//! Generates a value from a number, and reports on the value: the length and the sum of its bytes,
//! its objects and its words. `generate` promises the value that the definition `generated` gives.
//! `generated_line` promises the line for a value, whose verdict the caller supplies.

mod generated_item;
mod generated_value;
mod item_objects;
mod laws;
mod tally;
mod value_line;

pub use generated_item::declarations;
pub use generated_value::{Generated, generate};
pub use laws::worked_values_are_generated;
pub use value_line::generated_line;
