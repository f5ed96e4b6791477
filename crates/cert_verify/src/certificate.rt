//! Type certificates: the result of a check, in a form that is verified against the value without
//! search. A certificate entry lists pairs of objects and types that justify one another, or the
//! paths of a fault. The laws `accepted_sections_are_right` and `answers_are_one` state that
//! accepted entries are right and that each entry has one answer. The law
//! `reached_pairs_are_accepted` states that the pairs written for a value of the type are accepted.

mod entry_verdict;
mod held;
mod laws;
mod right;
mod stated_pairs;
mod test;
mod verified;

pub use entry_verdict::verify;
pub use laws::{
    accepted_sections_are_right, answers_are_one, reached_pairs_are_accepted,
    the_same_pairs_are_accepted,
};
pub use verified::{Verified, Why};
