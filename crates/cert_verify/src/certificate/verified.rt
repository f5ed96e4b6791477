//! The result of verifying a certificate entry.

use types_spec::types::fault::Fault;

/// The reason why an entry is rejected. Pairs are given by their index in the entry.
#[derive(Clone, Copy, PartialEq, Eq)]
pub enum Why {
    /// The pair names no object of the heap, or no type of the table.
    Range(u64),
    /// The object of the pair does not fit its type.
    Unfit(u64),
    /// This field of the pair's object does not fit its type, or refers to an object that no pair
    /// has at an equal type.
    Need(u64, u64),
    /// The object of the pair is mutable at its type, and another pair has the object at an unequal
    /// type.
    TwoTypes(u64),
    /// The root does not fit its type, or refers to an object that no pair has at an equal type.
    Root,
    /// The paths are not a fault.
    NotFault,
}

/// What an entry proves: the value has the type, or the value has this fault. A rejected entry
/// proves nothing.
#[derive(Drop)]
pub enum Verified {
    Yes,
    No(Fault),
    Rejected(Why),
}
