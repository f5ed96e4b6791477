//! Makes the certificate entry of a value from the verdict of a check.
//!
//! The crate owns the definition of the entry that certifies a value (`IsCertified`), and
//! `LeastFaults`: for each type of a table, the least number of an equal type. These least numbers
//! make the pairs of an entry unique. The crate is separate from `cert_verify`, so verification
//! depends on no code of the check.
//!
//! Promises:
//!
//! - `section_of` returns the entry that certifies the value. If the value has the type, the entry
//!   contains the pairs that paths reach. If not, the entry contains the value's least fault.
//! - `section_with` returns the entry that certifies the value, given the `LeastFaults` of the
//!   table. For many values, the `LeastFaults` are computed only once.
//! - `certified_sections_are_accepted`: if an entry certifies a value, then the entry is accepted,
//!   and verifying the entry returns what the entry shows.
//! - `certified_sections_are_one`: exactly one entry certifies a value.
//!
//! Leaves out: the check itself (`check_heap`), the format of certificates (`cert_format`),
//! verification (`cert_verify`), and the command `check --cert` (`cmd_certify`). `section_of` and
//! `section_with` presuppose a verdict with the contract of `check`. If memory runs out, they
//! return no entry.
#![tactic(auto)]

mod laws;
mod least_faults;
mod normal;
mod verdict_section;

pub use laws::{certified_sections_are_accepted, certified_sections_are_one};
pub use least_faults::LeastFaults;
pub use verdict_section::{section_of, section_with};
