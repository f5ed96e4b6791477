//! The implementation of the option `--skip`. `SkipCommand` wraps a command, skips the first bytes
//! of the input, and implements `Work` for the commands `skipping`. Each command gets the option
//! from `SkipCommand`, without code of its own.

mod skip_command;

pub use skip_command::{Over, SkipCommand};
