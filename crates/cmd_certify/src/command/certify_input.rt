//! The command `check --cert`: reads FILE and TYPE, and certifies the values of the input. The
//! contract states that the run satisfies `Account`.

ghost use Rattle.std.specs.Prelude.{List, ℕ};
ghost use Rattle.types_table.specs.type_table.Made.{table_of};
ghost use Rattle.cert_produce.specs.LeastFaults.{AreLeastFaults};
ghost use Rattle.cli_spec.specs.CommandLine.{certify as certify_of};
ghost use Rattle.cli_spec.specs.Outcome.{Asks, own};
ghost use Rattle.base_io.specs.StreamState.{change};
ghost use Rattle.run_spec.specs.runs.Account.{Account};
ghost use Rattle.run_spec.specs.runs.Call.{call};
ghost use Rattle.run_loop.specs.work.Reported.{HasAccount};
ghost use Rattle.cmd_certify.specs.command.CertifiedOutput.{on_certified_after};
ghost use Rattle.cmd_certify.specs.command.CertifyProgress.{certified_after};

use crate::command::certified_values::Certifying;
use base_io::{Opener, Sink, Source};
use cert_produce::LeastFaults;
use cli_errors::exit_line::report_exit;
use cli_spec::exit::Exit;
use cli_spec::read_options::ReadOptions;
use cli_spec::status::Status;
use opt_skip_only::skip::{Over, SkipCommand};
use opt_skip_only::skip_spec::laws::ByArguments;
use run_loop::work::run_reported;
use run_types::{Requested, find_type};
use std::alloc::Global;

// Certifies the values of the input at the requested type, given the least number of each class of
// equal types in the type's table.
fn certify_values<S: Source, K: Sink, E: Sink>(
    alloc: Global,
    requested: &Requested,
    least_faults: &LeastFaults,
    reading: ReadOptions,
    input: &mut S,
    out: &mut K,
    err: &mut E,
) -> Status
    requires least_faults { AreLeastFaults (table_of requested.now.table) least_faults.now }
    ensures { HasAccount on_certified_after (certified_after requested.now reading)
        (change (S.state input.old) (S.state input.new))
        (change (K.state out.old) (K.state out.new)) (change (E.state err.old) (E.state err.new))
        result }
{
    let work = Certifying::new(alloc, requested, least_faults, reading.limit);
    let over = Over {
        bytes: reading.skip,
        copied: false,
    };
    let mut skip_command = SkipCommand::<ByArguments, _>::new(work, over);
    run_reported(alloc, &mut skip_command, input, out, err)
}

// Computes the least number of each class of equal types, and certifies the values of the input.
fn certify_by<S: Source, K: Sink, E: Sink>(
    alloc: Global,
    requested: &Requested,
    reading: ReadOptions,
    input: &mut S,
    out: &mut K,
    err: &mut E,
) -> Status
    ensures { HasAccount on_certified_after (certified_after requested.now reading)
        (change (S.state input.old) (S.state input.new))
        (change (K.state out.old) (K.state out.new)) (change (E.state err.old) (E.state err.new))
        result }
{
    match LeastFaults::of(alloc, requested.table()) {
        Ok(least_faults) => certify_values(
            alloc,
            requested,
            &least_faults,
            reading,
            input,
            out,
            err,
        ),
        Err(_) => report_exit(alloc, err, &Exit::Memory),
    }
}

// Certifies the values of the input at the type that FILE and TYPE denote.
fn certify_over<S: Source, K: Sink, E: Sink>(
    alloc: Global,
    requested: Requested,
    reading: ReadOptions,
    input: &mut S,
    out: &mut K,
    err: &mut E,
) -> Status
    ensures { HasAccount on_certified_after (certified_after requested reading)
        (change (S.state input.old) (S.state input.new))
        (change (K.state out.old) (K.state out.new)) (change (E.state err.old) (E.state err.new))
        result }
{
    certify_by(alloc, &requested, reading, input, out, err)
}

/// Reads FILE and TYPE, and certifies the values of the input. Returns the exit status.
pub fn certify<S: Source, O: Opener, K: Sink, E: Sink>(
    alloc: Global,
    file: &str,
    type_text: &str,
    lines: bool,
    reading: ReadOptions,
    input: &mut S,
    files: &mut O,
    out: &mut K,
    err: &mut E,
) -> Status
    ensures { (arguments : List (List ℕ))
        → Asks arguments (own (certify_of file.now type_text.now lines reading))
        → Account on_certified_after arguments
        (call (change (S.state input.old) (S.state input.new))
        (change (O.state files.old) (O.state files.new))
        (change (K.state out.old) (K.state out.new))
        (change (E.state err.old) (E.state err.new)) result) }
{
    match find_type(alloc, files, file, type_text, lines, false) {
        Ok(requested) => certify_over(alloc, requested, reading, input, out, err),
        Err(exit) => report_exit(alloc, err, &exit),
    }
}
