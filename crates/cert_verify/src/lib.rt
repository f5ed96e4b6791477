//! Verifies that a certificate entry shows that a value has a type, or has a fault, without any
//! search.
//!
//! - `certificate`: The verifier (`verify`): each pair is tested by itself, and each path is
//!   followed. The module owns the result (`Verified`) and the reasons for a rejection (`Why`).
//! - `table_independence`: Theorems that the result does not depend on which table of the type is
//!   used.
//!
//! Of the checker (`check_heap`) the crate uses `fits` and lemmas, but not the scan or the search.
//!
//! Promises:
//!
//! - `verify` returns what the entry shows of the value: the type, or a fault. If the entry is
//!   rejected, `verify` returns the first reason.
//! - `accepted_sections_are_right`: if pairs are accepted, the value has the type, and the pairs
//!   include every object that paths reach. If paths are accepted, the value does not have the
//!   type.
//! - `reached_pairs_are_accepted`: the pairs that paths reach in a value of the type are accepted.
//! - `answers_are_one`: no entry is accepted and also rejected, and each entry has one answer.
//! - `tables_verify_agree`: an entry has one answer for all tables of the type.
//!
//! Leaves out: the text of a certificate (`cert_format`), making entries (`cert_produce`), and the
//! command (`cmd_verify`). An accepted fault need not be the least fault.
#![tactic(auto)]

pub mod certificate;
pub mod table_independence;
