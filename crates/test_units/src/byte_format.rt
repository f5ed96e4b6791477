//! Tests of the byte format: codes, headers, tokens, custom values, the heap and the reader.

mod code_tests;
mod custom_tests;
mod hashes;
mod header_tests;
mod heaps;
mod readers;
mod token_tests;
