//! Tests of the output and the operations for values at types.

mod arrays;
mod certificates;
mod double_tests;
mod dumps;
mod passes;
mod string_tests;
mod value_tables;
