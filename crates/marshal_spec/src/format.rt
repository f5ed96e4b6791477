//! Defines the byte format of OCaml's Marshal (`intext.h`, `intern.c`): codes, headers, word
//! counts, tokens, trees, read steps, incomplete and refused bytes, and streams. The crate has no
//! code besides its laws. The laws `HasOneJudgement`, `NoEncodingBeginsAnother` and
//! `EncodesOneToken` say that the format is unambiguous.

pub mod laws;
