//! Parsing of the arguments to a request.

ghost use Rattle.std.specs.Prelude.{◌≡◌, ◌≢◌, option_map};
ghost use Rattle.clap.specs.Words.{kind_of};
ghost use Rattle.clap.specs.declared.error.kind.ErrorKind.TheVariants as kinds;
ghost use Rattle.cli_args.specs.declared.request_parser.ArgumentsError.TheVariants as unreads;
ghost use Rattle.cli_args.specs.Requests.{arguments_of, check_asks, command_sum_in, choosing_in};
ghost use Rattle.cli_args.specs.Requests.{flag_in, given_in, if_whole, number_in};
ghost use Rattle.cli_args.specs.Requests.{reading_in, request_of, style_in, texts, word_in};
ghost use Rattle.cli_args.specs.Requests.{ReadsAsked, ReadsBy, ReadsMet, ReadsArguments};

use crate::command_set::command_set;
use clap::error::ErrorKind;
use clap::{ArgMatches, Error};
use cli_spec::read_options::ReadOptions;
use cli_spec::style::Style;
use std::alloc::{AllocError, Global};

/// The request of a command line. `lines` is true if positions in texts are reported by line and
/// column. `decimal` is true if decimals stand for doubles in the texts of values. `reading` holds
/// the options for reading values.
#[derive(Clone, Copy)]
pub enum Request<'a> {
    /// Reports whether the values of the input have the type.
    Check {
        file: &'a str,
        type_text: &'a str,
        lines: bool,
        reading: ReadOptions,
    },
    /// Prints the texts of the values of the input, at the type.
    Show {
        file: &'a str,
        type_text: &'a str,
        style: Style,
        lines: bool,
        reading: ReadOptions,
    },
    /// Prints the text of the part at the path, at the type.
    Get {
        file: &'a str,
        type_text: &'a str,
        path_text: &'a str,
        style: Style,
        lines: bool,
        reading: ReadOptions,
    },
    /// Writes the bytes of the values of the input at the type, after the edits of a script. If
    /// `compat` is true, refuses a value that a 32-bit reader cannot hold.
    Edit {
        file: &'a str,
        type_text: &'a str,
        script: &'a str,
        compat: bool,
        lines: bool,
        decimal: bool,
        reading: ReadOptions,
    },
    /// Reports whether the search trees in the values of the input, which have the type, are valid.
    Trees {
        file: &'a str,
        type_text: &'a str,
        lines: bool,
        reading: ReadOptions,
    },
    /// Prints the values of the input without a type.
    Dump {
        reading: ReadOptions,
    },
    /// Reports whether the two values of the input are the same.
    Same {
        reading: ReadOptions,
    },
    /// Writes the bytes of the values that the input lines denote, at the type.
    Build {
        file: &'a str,
        type_text: &'a str,
        lines: bool,
        decimal: bool,
    },
    /// Reports for each value whether a certificate proves that the value has the type, or has it
    /// not.
    Verify {
        file: &'a str,
        type_text: &'a str,
        certificate: &'a str,
        lines: bool,
        reading: ReadOptions,
    },
    /// Writes a certificate for the values of the input: the reason why each value has the type or
    /// does not have the type.
    Certify {
        file: &'a str,
        type_text: &'a str,
        lines: bool,
        reading: ReadOptions,
    },
    /// Prints the line for the generated value with the number `number`, with `count` items, at the
    /// type.
    Generate {
        number: u64,
        count: u64,
        type_text: &'a str,
    },
    /// Reports the offsets of the values that a search finds in the input.
    Scan {
        limit: u64,
    },
}

/// Error of parsing the arguments: the arguments make no request, or memory ran out.
#[derive(Clone, Copy)]
pub enum ArgumentsError {
    Usage,
    Memory,
}

impl From<AllocError> for ArgumentsError {
    ghost use Rattle.std.specs.Prelude.{◌≡◌};
    ghost use Rattle.cli_args.specs.declared.request_parser.ArgumentsError.TheVariants as unreads;

    ghost from_gives = { λ _ u. u ≡ unreads.Memory };

    fn from(_: AllocError) -> Self {
        ArgumentsError::Memory
    }
}

// Returns the argument with the name `name`, or the empty text if the argument is absent.
fn word<'a>(arguments: &ArgMatches<'a>, name: &str) -> &'a str
    ensures { result.now ≡ word_in (arguments_of arguments.now) name.now }
{
    arguments.get_str(name).unwrap_or("")
}

// Returns true if the flag with the name `name` is used.
fn flag(arguments: &ArgMatches, name: &str) -> bool
    ensures { result ≡ flag_in (arguments_of arguments.now) name.now }
{
    word(arguments, name) == "true"
}

// Returns the style for printing values.
fn style(arguments: &ArgMatches) -> Style
    ensures { result ≡ style_in (arguments_of arguments.now) }
{
    Style {
        pretty: flag(arguments, "pretty"),
        decimal: flag(arguments, "decimal"),
    }
}

// Returns the number with the name `name`, or `None` if the number is not given.
fn given(arguments: &ArgMatches, name: &str) -> Option<u64>
    ensures { result ≡ given_in (arguments_of arguments.now) name.now }
{
    arguments.get_one::<u64>(name)
}

// Returns the number with the name `name`, or 0 if the number is not given.
fn number(arguments: &ArgMatches, name: &str) -> u64
    ensures { result ≡ number_in (arguments_of arguments.now) name.now }
{
    given(arguments, name).unwrap_or(0)
}

// Returns the options for reading values, where `only` is the number for `--only`.
fn choosing(arguments: &ArgMatches, only: Option<u64>) -> ReadOptions
    ensures { result ≡ choosing_in (arguments_of arguments.now) only }
{
    ReadOptions {
        limit: number(arguments, "limit"),
        skip: number(arguments, "skip"),
        only,
    }
}

// Returns the options for reading all values.
fn reading(arguments: &ArgMatches) -> ReadOptions
    ensures { result ≡ reading_in (arguments_of arguments.now) }
{
    choosing(arguments, None)
}

// Returns the options for reading values, for a command that accepts `--only`.
fn command_sum(arguments: &ArgMatches) -> ReadOptions
    ensures { result ≡ command_sum_in (arguments_of arguments.now) }
{
    choosing(arguments, given(arguments, "only"))
}

// Returns the request of `check`, which is for lines or for a certificate. A certificate of a
// single value is no request.
fn check_request<'a>(
    certified: bool,
    file: &'a str,
    type_text: &'a str,
    lines: bool,
    reading: ReadOptions,
) -> Option<Request<'a>>
    ensures { option_map request_of result
        ≡ if_whole (check_asks certified file.now type_text.now lines reading) }
{
    if certified {
        match reading.only {
            None => Some(Request::Certify {
                file,
                type_text,
                lines,
                reading,
            }),
            Some(_) => None,
        }
    } else {
        Some(Request::Check {
            file,
            type_text,
            lines,
            reading,
        })
    }
}

// Returns the request of a command. Arguments that the command does not have are empty or 0, and
// are not used.
fn request_by<'a>(command: &str, arguments: &ArgMatches<'a>) -> Option<Request<'a>>
    ensures { ReadsBy command.now (arguments_of arguments.now) result }
{
    let file = word(arguments, "FILE");
    let type_text = word(arguments, "TYPE");
    let lines = flag(arguments, "lines");
    let reading = reading(arguments);
    match command {
        "check" => {
            let certified = flag(arguments, "cert");
            check_request(certified, file, type_text, lines, command_sum(arguments))
        }
        "show" => Some(Request::Show {
            file,
            type_text,
            style: style(arguments),
            lines,
            reading: command_sum(arguments),
        }),
        "get" => Some(Request::Get {
            file,
            type_text,
            path_text: word(arguments, "PATH"),
            style: style(arguments),
            lines,
            reading: command_sum(arguments),
        }),
        "edit" => Some(Request::Edit {
            file,
            type_text,
            script: word(arguments, "SCRIPT"),
            compat: flag(arguments, "compat32"),
            lines,
            decimal: flag(arguments, "decimal"),
            reading,
        }),
        "trees" => Some(Request::Trees {
            file,
            type_text,
            lines,
            reading,
        }),
        "dump" => Some(Request::Dump {
            reading: command_sum(arguments),
        }),
        "same" => Some(Request::Same { reading }),
        "build" => Some(Request::Build {
            file,
            type_text,
            lines,
            decimal: flag(arguments, "decimal"),
        }),
        "verify" => Some(Request::Verify {
            file,
            type_text,
            certificate: word(arguments, "CERT"),
            lines,
            reading,
        }),
        "gen" => Some(Request::Generate {
            number: number(arguments, "NUMBER"),
            count: number(arguments, "COUNT"),
            type_text,
        }),
        "scan" => Some(Request::Scan {
            limit: reading.limit,
        }),
        _ => None,
    }
}

// Returns the request of the command that clap found.
fn request_met<'a>(matches: &ArgMatches<'a>) -> Option<Request<'a>>
    ensures { ReadsMet matches.now result }
{
    let (command, arguments) = matches.subcommand()?;
    request_by(command, arguments)
}

// Returns the request of the command that clap found, or `Usage` if there is no request.
fn request_asked<'a>(matches: &ArgMatches<'a>) -> Result<Request<'a>, ArgumentsError>
    ensures { ReadsAsked matches.now result }
{
    match request_met(matches) {
        Some(request) => Ok(request),
        None => Err(ArgumentsError::Usage),
    }
}

// Returns the reason why clap refuses the arguments.
fn refusal_of(error: &Error) -> ArgumentsError
    ensures { (result ≡ unreads.Usage) → kind_of error.now ≢ kinds.OutOfMemory }
{
    match error.kind() {
        ErrorKind::OutOfMemory => ArgumentsError::Memory,
        _ => ArgumentsError::Usage,
    }
}

/// Parses the arguments, without the program's name, to a request. Returns `Usage` if the arguments
/// make no request, and `Memory` if memory runs out.
pub fn read_arguments<'a>(
    alloc: Global,
    command_line: &'a [String],
) -> Result<Request<'a>, ArgumentsError>
    ensures { ReadsArguments (texts command_line.entry.now) result }
{
    match command_set(alloc)?.try_get_matches_from(command_line) {
        Ok(matches) => request_asked(&matches),
        Err(error) => Err(refusal_of(&error)),
    }
}
