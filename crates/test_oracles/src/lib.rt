//! Computes what bytes encode directly from the definitions of the format, slowly and plainly.
//!
//! The crate owns `judge`, whose result is a `Judgement` (a prefix, a value with its tokens, or a
//! refusal). The crate also owns `Token`, `Refusal`, and `graph_of`, which builds the graph of a
//! list of tokens. `test_conformance` compares the results of `judge` with the results of the
//! reader.
//!
//! Promises:
//!
//! - `judge` returns what the bytes encode under the limit, by the definitions of `marshal_spec`.
//!   The result is a prefix, a value that the first bytes encode, or a refusal.
//! - `graph_of` returns a graph for the tokens of a tree.
//! - `Refusal::narrow` returns the refusal in the form of `ReadRefusal`, if the numbers of the
//!   refusal are small enough. Otherwise `narrow` returns `None`.
//!
//! Leaves out: speed. `judge` cuts the bytes and sums the tokens anew at each token. The reader of
//! a run is `marshal_read`, and no run calls this crate. Types and texts have no oracle in this
//! crate.
#![tactic(auto)]

mod build;
mod code;
mod context;
mod cut;
mod header;
mod judgement;
mod prefix;
mod raw;
mod refusal;
mod step;
mod token;
mod token_step;
mod words;

pub use build::{Graph, graph_of};
pub use judgement::{Judgement, judge};
pub use refusal::Refusal;
pub use token::Token;
