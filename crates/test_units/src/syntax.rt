//! Tests of lexemes.

mod lexeme_tests;
