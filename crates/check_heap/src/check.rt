//! Decides whether a value has a type, which is a number of a type table. `check` returns a typing
//! that justifies the answer yes (`IsYes`), or the first fault (`IsLeastFault`); both directions
//! are proved. `check_mismatched` is faster if the value has a type mismatch. The steps of `check`
//! are bounded by `most_steps`. `met` returns all objects that the paths of a well-typed value
//! reach. The crate checks values in a heap, not bytes.

mod asked;
mod conflict;
mod decide;
mod flat_values;
mod laws;
mod meetings;
mod rest;
mod search;
mod settle;
mod settled_objects;
mod trail;
mod typed_objects;
mod verdict;
mod visit_path;
mod visits;

pub use crate::scan::Steps;
pub use decide::{check, check_mismatched};
pub use flat_values::surely_has;
pub use laws::items_take_61_steps;
pub use meetings::{AllMet, met};
pub use typed_objects::Typing;
pub use verdict::Verdict;
