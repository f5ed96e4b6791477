//! The program: makes the real input, files and outputs, and runs the command that the arguments
//! request.
//!
//! The crate owns `program`, which is everything that the program does, and `main`. If standard
//! input is closed, each read of standard input fails (`MaybeClosed`).
//!
//! Promises: the contract of `program` states what a run writes, the number of the exit status, and
//! what happens if the arguments cannot be read. `program` is generic over the input, the files and
//! the outputs.
//!
//! Leaves out: everything about commands (`session`) and the implementations of input, files and
//! outputs (`base_io`). `main` and `standard_input` have no contract. `main` passes the arguments
//! and the real environment to `program`, and ends with the exit code of `program`. These two facts
//! are read in the code and trusted.
#![tactic(auto)]

ghost use Rattle.std.specs.Prelude.{◌≡◌, ◌≢◌, drop, IfOk};
ghost use Rattle.std.specs.Process.{exit_status};
ghost use Rattle.std.specs.Vec.Iter.{into_iter_items};
ghost use Rattle.std.specs.declared.io.ErrorKind.TheVariants as kinds;
ghost use Rattle.cli_spec.specs.declared.exit.Exit.TheVariants.{Usage as usage};
ghost use Rattle.cli_spec.specs.declared.exit.Exit.TheVariants.{Memory as out_of_memory};
ghost use Rattle.cli_spec.specs.declared.status.Status.{Status as StatusOf};
ghost use Rattle.cli_spec.specs.Status.{code_of};
ghost use Rattle.base_io.specs.StreamState.{change};
ghost use Rattle.run_spec.specs.runs.Call.{call};
ghost use Rattle.omarshal.specs.Ending.{Outputs};
ghost use Rattle.omarshal.specs.Program.{EndsProgram};

use base_io::{DiskFiles, MaybeClosed, Opener, Sink, Source, StdSink, StdSource};
use cli_errors::report::report;
use cli_spec::status::Status;
use session::run;
use std::alloc::{AllocError, Global};
use std::env::Args;
use std::io::{ErrorKind, Lock, StdinLock};
use std::os::fd::AsFd;
use std::process::ExitCode;
use std::{env, io};

/// Writes the error line of a run whose arguments could not be read, and returns the status of that
/// line. If memory ran out, the line is that of `out_of_memory`, and otherwise that of `usage`. If
/// the line cannot be written completely, returns `WriteFault`.
fn exit<K: Sink>(err: &mut K, kind: ErrorKind) -> Status
    ensures memory { kind ≡ kinds.OutOfMemory
        → Outputs out_of_memory (change (K.state err.old) (K.state err.new)) result }
    ensures others { kind ≢ kinds.OutOfMemory
        → Outputs usage (change (K.state err.old) (K.state err.new)) result }
{
    match kind {
        ErrorKind::OutOfMemory => report(err, b"omarshal: out of memory\n", Status::Memory),
        _ => report(err, b"omarshal: usage\n", Status::Usage),
    }
}

/// Returns the arguments after the first, in order.
fn arguments_after(alloc: Global, mut args: Args) -> Result<Vec<String>, AllocError>
    ensures { IfOk result (λ arguments. arguments.items ≡ drop 1 (into_iter_items args)) }
{
    let _name = args.next();
    let mut arguments = Vec::new(alloc);
    'arguments: while let Some(word) = args.next() {
        arguments.push(word)?;
    }
    Ok(arguments)
}

/// Returns standard input. If the descriptor of standard input cannot be duplicated, standard input
/// counts as closed. A file that is opened later may get the closed descriptor, and must not be
/// read as standard input.
fn standard_input(rt: &HostRuntime) -> MaybeClosed<StdinLock> {
    let stdin = rt.stdin();
    match stdin.as_fd().try_clone_to_owned() {
        Ok(_) => MaybeClosed::Open(stdin.lock()),
        Err(_) => MaybeClosed::Closed,
    }
}

/// Returns the exit code of the process, which is the code of the status of the run.
fn exit_code(status: Status) -> ExitCode
    ensures { exit_status result ≡ code_of status }
{
    ExitCode::from(status.code())
}

/// Drops the first argument, runs the command that the other arguments request, and returns the
/// status. If the arguments cannot be read, writes one line to `err`.
fn run_arguments<S: Source, O: Opener, K: Sink, E: Sink>(
    alloc: Global,
    args: io::Result<Args>,
    input: &mut S,
    files: &mut O,
    out: &mut K,
    err: &mut E,
) -> Status
    ensures { EndsProgram args (call (change (S.state input.old) (S.state input.new))
        (change (O.state files.old) (O.state files.new))
        (change (K.state out.old) (K.state out.new))
        (change (E.state err.old) (E.state err.new)) result) }
{
    err.knows_bytes();
    let args = match args {
        Ok(args) => args,
        Err(error) => return exit(err, error.kind()),
    };
    let Ok(arguments) = arguments_after(alloc, args) else {
        return exit(err, ErrorKind::OutOfMemory);
    };
    run(alloc, arguments.as_slice(), input, files, out, err)
}

/// Does everything that the program does: runs the command that the arguments request, and returns
/// the exit code of the process.
fn program<S: Source, O: Opener, K: Sink, E: Sink>(
    alloc: Global,
    args: io::Result<Args>,
    input: &mut S,
    files: &mut O,
    out: &mut K,
    err: &mut E,
) -> ExitCode
    ensures { (status : StatusOf) × (exit_status result ≡ code_of status)
        × EndsProgram args (call (change (S.state input.old) (S.state input.new))
        (change (O.state files.old) (O.state files.new))
        (change (K.state out.old) (K.state out.new))
        (change (E.state err.old) (E.state err.new)) status) }
{
    exit_code(run_arguments(alloc, args, input, files, out, err))
}

fn main(rt: HostRuntime) -> ExitCode {
    let mut input = StdSource::new(standard_input(&rt));
    let mut files = DiskFiles::new(rt.alloc(), &rt);
    let mut out = StdSink::new(rt.stdout());
    let mut err = StdSink::new(rt.stderr());
    let args = env::args(&rt);
    program(rt.alloc(), args, &mut input, &mut files, &mut out, &mut err)
}
