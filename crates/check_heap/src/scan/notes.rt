//! The objects that a scan finds referenced at a second class.

ghost use Rattle.std.specs.Prelude.{◌≡◌, None, length};
ghost use Rattle.check_heap.specs.scan.Classed.{IsUntouched};
ghost use Rattle.check_heap.specs.scan.Seconds.{noted_in};

use crate::scan::second_types::SecondTypes;
use std::alloc::Global;

/// The first required field of an object that is not satisfied.
#[derive(Clone, Copy)]
pub struct Unmet {
    /// The number of typed fields before the required field.
    pub position: u64,
    pub field: u64,
    /// True if the value of the field is no object and does not match. False if the value is an
    /// object that was referenced at another type before.
    pub unfit: bool,
}

/// The required field at which an object was referenced at a second class for the first time.
#[derive(Clone, Copy)]
pub struct First {
    /// The object that has the required field.
    pub object: u64,
    pub ty: usize,
    pub unmet: Unmet,
    /// The number of steps before the object was checked.
    pub steps: u64,
}

/// The objects that were referenced at a second class, and the field at which the first such object
/// was found.
#[derive(Drop)]
pub struct Notes {
    pub seconds: SecondTypes,
    pub first: Option<First>,
}

impl Notes {
    /// Creates empty notes.
    pub fn none(alloc: Global) -> Notes
        ensures none { length (noted_in result.seconds) ≡ 0 }
        ensures known { IsUntouched result.seconds.known }
        ensures first { result.first ≡ None }
    {
        Notes {
            seconds: SecondTypes::none(alloc),
            first: None,
        }
    }
}
