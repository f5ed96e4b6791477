//! Decides if a value in a heap has a type, and finds the least fault if the value has not.
//!
//! - `fits`: Whether a value matches the representation of a type, which fields of the value have
//!   types (`needs_of`), and whether the value is mutable (`is_mutable`).
//! - `scan`: A linear scan of the heap, which checks each object once, in address order, at the
//!   type at which the object is first met. Objects that are met at a second type are noted
//!   (`scan`, `Noted`).
//! - `check`: The verdict (`check`, `Verdict`), by the scan or by a breadth-first search, and all
//!   objects that paths reach (`met`, `AllMet`).
//!
//! Promises: if `check` returns `Yes`, the value has the type, and the returned objects and types
//! justify each other. If `check` returns `No`, the value has not the type, and the returned fault
//! is the least one (`IsVerdict`). Some path leads to each object of a `Yes` at its type. `check`
//! counts at most `most_steps` steps. `surely_has` returns true only for a value that has the type.
//! `scan` reports the types of the objects that the scan took, or that the scan cannot decide.
//! `met` returns each object once at each class of types at which paths meet the object, and
//! `AllMet::path` returns the least path to a visit. `items_take_61_steps` bounds the steps for one
//! worked example.
//!
//! Leaves out: the definition of types and faults (`types_spec`), the text of a fault
//! (`check_fault`), and checks without a heap (`check_stream`). Memory is not bounded.
#![tactic(auto)]

pub mod check;
pub mod fits;
pub mod scan;
