//! Proves a law about two calls of the whole program: `verify` accepts what `check --cert` wrote,
//! and prints what `check` prints.

pub mod laws;
