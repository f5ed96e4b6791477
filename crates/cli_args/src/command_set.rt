//! The commands and their `clap` configuration.

ghost use Rattle.std.specs.Prelude.{◌≡◌, IfOk, false};
ghost use Rattle.clap.specs.Words.{app_of, rule_of};
ghost use Rattle.cli_spec.specs.CommandLine.{rule_for, command_set as the_command_set};
ghost use Rattle.cli_args.specs.CommandSet.{AddsMade, Reports, app_with, argument_of};
ghost use Rattle.cli_args.specs.CommandSet.{program as the_program, program_with};

use clap::builder::ValueParser;
use clap::{Arg, ArgAction, Command};
use std::alloc::{AllocError, Global};

/// An argument of a command.
#[derive(Clone, Copy)]
enum Argument<'a> {
    /// `--NAME`, a flag that is used or not.
    Flag(&'a str),
    /// `--NAME N`: a number with a maximum and a default.
    Option(&'a str, u64, &'a str),
    /// `--NAME N`: a number with a maximum and without a default.
    Optional(&'a str, u64),
    /// A required positional argument.
    Word(&'a str),
    /// A required positional number with a maximum.
    Number(&'a str, u64),
}

/// A command: its name and its arguments.
type Form<'a> = (&'a str, &'a [Argument<'a>]);

// The maximum for the limit of 64-bit words in a value.
const GREATEST_LIMIT: u64 = 1 << 40;

// The maximum number of bytes to skip.
const GREATEST_SKIP: u64 = 1 << 48;

// The maximum number of a value for `--only`.
const GREATEST_ONLY: u64 = (1 << 63) - 1;

// The maximum NUMBER of a generated value.
const GREATEST_NUMBER: u64 = 2147483647;

// The maximum COUNT of the items of a generated value.
const GREATEST_COUNT: u64 = 1000000;

const LIMIT: Argument<'static> = Argument::Option("limit", GREATEST_LIMIT, "134217728");

const SKIP: Argument<'static> = Argument::Option("skip", GREATEST_SKIP, "0");

const ONLY: Argument<'static> = Argument::Optional("only", GREATEST_ONLY);

const COMPAT: Argument<'static> = Argument::Flag("compat32");

const CERTIFIED: Argument<'static> = Argument::Flag("cert");

const PRETTY: Argument<'static> = Argument::Flag("pretty");

const DECIMAL: Argument<'static> = Argument::Flag("decimal");

const LINES: Argument<'static> = Argument::Flag("lines");

const FILE: Argument<'static> = Argument::Word("FILE");

const TYPE: Argument<'static> = Argument::Word("TYPE");

const PATH: Argument<'static> = Argument::Word("PATH");

const SCRIPT: Argument<'static> = Argument::Word("SCRIPT");

const CERT: Argument<'static> = Argument::Word("CERT");

const NUMBER: Argument<'static> = Argument::Number("NUMBER", GREATEST_NUMBER);

const COUNT: Argument<'static> = Argument::Number("COUNT", GREATEST_COUNT);

static FORMS: [Form<'static>; 11] = [
    ("check", &[CERTIFIED, ONLY, LINES, LIMIT, SKIP, FILE, TYPE]),
    (
        "show",
        &[PRETTY, DECIMAL, ONLY, LINES, LIMIT, SKIP, FILE, TYPE],
    ),
    (
        "get",
        &[PRETTY, DECIMAL, ONLY, LINES, LIMIT, SKIP, FILE, TYPE, PATH],
    ),
    (
        "edit",
        &[DECIMAL, LINES, LIMIT, SKIP, FILE, TYPE, SCRIPT, COMPAT],
    ),
    ("trees", &[LINES, LIMIT, SKIP, FILE, TYPE]),
    ("dump", &[ONLY, LIMIT, SKIP]),
    ("same", &[LIMIT, SKIP]),
    ("build", &[DECIMAL, LINES, FILE, TYPE]),
    ("verify", &[LINES, LIMIT, SKIP, FILE, TYPE, CERT]),
    ("gen", &[NUMBER, COUNT, TYPE]),
    ("scan", &[LIMIT]),
];

// Returns the clap rule of an argument.
fn rule<'a>(alloc: Global, argument: Argument<'a>) -> Arg<'a>
    ensures rule { rule_of result ≡ rule_for (argument_of argument.entry) }
    ensures local { result.global ≡ false }
{
    match argument {
        Argument::Flag(name) => Arg::new(alloc, name).long(name).action(ArgAction::SetTrue),
        Argument::Option(name, greatest, usual) => Arg::new(alloc, name)
            .long(name)
            .value_parser(ValueParser::unsigned(0, greatest))
            .default_value(usual),
        Argument::Optional(name, greatest) => Arg::new(alloc, name)
            .long(name)
            .value_parser(ValueParser::unsigned(0, greatest)),
        Argument::Word(name) => Arg::new(alloc, name).required(true),
        Argument::Number(name, greatest) => Arg::new(alloc, name)
            .value_parser(ValueParser::unsigned(0, greatest))
            .required(true),
    }
}

// Builds a command with the given name and arguments.
fn made<'a>(
    alloc: Global,
    name: &'a str,
    arguments: &'a [Argument<'a>],
) -> Result<Command<'a>, AllocError>
    ensures { IfOk result
        (λ command. Reports command (app_with name.entry.now arguments.entry.now)) }
{
    let mut command = Command::new(alloc, name);
    for argument in arguments {
        command = command.arg(rule(alloc, *argument))?;
    }
    Ok(command)
}

// Builds the program without commands. A command is required, and there is no help command or flag.
fn program<'a>(alloc: Global) -> Command<'a>
    ensures { app_of result ≡ the_program }
{
    Command::new(alloc, "omarshal")
        .no_binary_name(true)
        .subcommand_required(true)
        .disable_help_flag(true)
        .disable_help_subcommand(true)
}

// Adds a command, if the command could be built.
fn with<'a>(
    all: Command<'a>,
    made: Result<Command<'a>, AllocError>,
) -> Result<Command<'a>, AllocError>
    ensures { IfOk result (λ command. AddsMade all.entry made.entry command) }
{
    all.subcommand(made?)
}

// Builds the program with the commands of a table.
fn made_of<'a>(alloc: Global, forms: &'a [Form<'a>]) -> Result<Command<'a>, AllocError>
    ensures { IfOk result (λ command. app_of command ≡ program_with forms.entry.now) }
{
    let mut all = program(alloc);
    for (name, arguments) in forms {
        all = with(all, made(alloc, name, arguments))?;
    }
    Ok(all)
}

/// Returns the clap configuration of all commands with their arguments.
pub fn command_set<'a>(alloc: Global) -> Result<Command<'a>, AllocError>
    ensures { IfOk result (λ command. app_of command ≡ the_command_set) }
{
    made_of(alloc, &FORMS)
}
