//! Unit tests of the other crates, which have no tests of their own.
//!
//! A crate that has tests is proved a second time for its tests, so the tests are collected in this
//! crate. Each test compares a result with test vectors from outside the repository, or calls once
//! what no stored question of `test_conformance` reaches.
//!
//! - `byte_format`: Codes, headers, custom blocks, hashes of tags, heaps and readers.
//! - `environment_tests`: The implementations of `base_io`, the loop with the small commands, and
//!   the writer.
//! - `laws`: Calls of lemma functions, whose contracts are theorems.
//! - `syntax`: Lexemes.
//! - `value_tests`: Arrays, doubles, certificates, printed atoms, graphs, and values checked from
//!   bytes.
//!
//! Promises: nothing beyond the tests; the crate has no code outside the tests.
//!
//! Leaves out: whole runs and stored answers (`test_conformance`), and the oracle for bytes
//! (`test_oracles`). A passing test is no proof. What a function does is in the contract of the
//! function.
#![tactic(auto)]

#[cfg(test)]
mod byte_format;
#[cfg(test)]
mod environment_tests;
#[cfg(test)]
mod laws;
#[cfg(test)]
mod syntax;
#[cfg(test)]
mod value_tests;
