//! Decides whether two values are isomorphic, that is, equal up to the numbers of their objects.
//! `same` returns true if and only if the values satisfy `Isomorphism`. Isomorphism includes
//! sharing and cycles: a shared object never agrees with two copies.

mod compare;
mod pairing;
mod same_contents;

pub use compare::same;
