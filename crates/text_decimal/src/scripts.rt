//! Parses edit scripts in which decimals may denote doubles. Each line is parsed as its plain text,
//! and all reported offsets refer to the original line. The contract of `read_given_script` is
//! `IsGivenAnswer`. The script's grammar is in `text_path`, the conversion of decimals in
//! `texts`.

mod decimal_script_parser;
mod given_offsets;
mod plain_scripts;

pub use decimal_script_parser::read_given_script;
