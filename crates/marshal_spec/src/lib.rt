//! The definition of OCaml's Marshal format, and the theorems about the format.
//!
//! The crate owns the definitions of token codes, headers, tokens, trees of tokens, the steps that
//! refuse bytes, prefixes, and streams of values. The definitions follow `intext.h`, `intern.c` and
//! `extern.c`. The limits, the offsets in refusals, and which bytes are incomplete are definitions
//! of this project.
//!
//! - `format`: The format and theorems about all byte strings. Bytes encode a tree of tokens
//!   (`EncodedUnder`), are a prefix of an encoding (`IsPrefix`) or are refused (`IsRefused`). A
//!   tree has canonical bytes (`canon`). Two values may be isomorphic (`Isomorphism`).
//! - `canonical`: Theorems about canonical bytes and isomorphic values.
//!
//! The crate promises:
//! - `one_judgement`: Under each limit, bytes are a prefix of a value, begin with one value, or
//!   have one refusal. Exactly one of these three cases holds, in one way.
//! - `one_token`: Bytes encode at most one token.
//! - `no_encoding_begins_another`: No encoding of a token is a proper prefix of another encoding of
//!   a token.
//! - `canon_encodes`: If a tree's data have fewer than 2^48 bytes, then its canonical bytes encode
//!   the tree under each limit that the tree's words keep.
//! - `one_tree`: Each value of a graph has exactly one tree whose root value is isomorphic to the
//!   value.
//! - `same_is_an_equivalence`: Isomorphism is an equivalence relation.
//!
//! The crate leaves out code that reads or writes bytes (`marshal_codec`, `marshal_read`,
//! `marshal_write`) and types (`types_spec`). Of the custom blocks, the crate defines only `Int32`,
//! `Int64` and `Nativeint`.
#![tactic(auto)]

pub mod canonical;
pub mod format;
