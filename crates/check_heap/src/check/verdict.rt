//! The result of a check.

use crate::check::typed_objects::Typing;
use types_spec::types::fault::Fault;

/// The verdict on a value: `Yes` with the typing that justifies it, or `No` with the first fault.
#[derive(Drop)]
pub enum Verdict {
    Yes(Typing),
    No(Fault),
}
