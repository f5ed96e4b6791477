//! The implementation of the option `--only`. `OnlyCommand` wraps a command, writes the output for
//! one item only, and implements `Work` for the commands `only_command`. Each command that counts
//! its items (`Counts`) gets the option from `OnlyCommand`, without code of its own.

mod counts;
mod only_command;

pub use counts::Counts;
pub use only_command::OnlyCommand;
