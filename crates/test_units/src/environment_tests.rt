//! Tests of the environment and the writer: sources, sinks, files, values that are written to
//! failing sinks, and small commands that run over them.

mod edge;
mod works;
mod writer_tests;
