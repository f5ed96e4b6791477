//! The command `build`: writes the bytes of the values that the lines of the input denote.

ghost use Rattle.std.specs.Prelude.{List, ℕ};
ghost use Rattle.cli_spec.specs.Outcome.{Asks, own, build as build_of};
ghost use Rattle.base_io.specs.StreamState.{change};
ghost use Rattle.run_spec.specs.runs.Account.{Account};
ghost use Rattle.run_spec.specs.runs.Call.{call};
ghost use Rattle.run_loop.specs.work.Reported.{HasAccount};
ghost use Rattle.run_types.specs.RequestedTexts.{type_over};
ghost use Rattle.session.specs.All.{on_texts};

use base_io::{Opener, Sink, Source};
use cli_errors::exit_line::report_exit;
use cli_spec::status::Status;
use cmd_build::command::BuildState;
use run_loop::work::run_reported;
use run_types::{Requested, find_type};
use std::alloc::Global;

// Writes the bytes of the values at the type from FILE and TYPE.
fn build_over<S: Source, K: Sink, E: Sink>(
    alloc: Global,
    requested: Requested,
    input: &mut S,
    out: &mut K,
    err: &mut E,
) -> Status
    ensures { HasAccount on_texts (type_over requested)
        (change (S.state input.old) (S.state input.new))
        (change (K.state out.old) (K.state out.new)) (change (E.state err.old) (E.state err.new))
        result }
{
    run_reported(
        alloc,
        &mut BuildState::new(alloc, &requested),
        input,
        out,
        err,
    )
}

/// Reads FILE and TYPE, and writes the bytes of the values that the lines of the input denote.
/// Returns the exit status.
pub fn build<S: Source, O: Opener, K: Sink, E: Sink>(
    alloc: Global,
    file: &str,
    type_text: &str,
    lines: bool,
    decimal: bool,
    input: &mut S,
    files: &mut O,
    out: &mut K,
    err: &mut E,
) -> Status
    ensures { (arguments : List (List ℕ))
        → Asks arguments (own (build_of file.now type_text.now lines decimal))
        → Account on_texts arguments
        (call (change (S.state input.old) (S.state input.new))
        (change (O.state files.old) (O.state files.new))
        (change (K.state out.old) (K.state out.new))
        (change (E.state err.old) (E.state err.new)) result) }
{
    match find_type(alloc, files, file, type_text, lines, decimal) {
        Ok(requested) => build_over(alloc, requested, input, out, err),
        Err(exit) => report_exit(alloc, err, &exit),
    }
}
