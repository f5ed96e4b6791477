//! The program's top-level function.

ghost use Rattle.std.specs.Prelude.{List, ℕ};
ghost use Rattle.cli_spec.specs.Outcome.{Asks, asked_type, get as get_of, edit as edit_of};
ghost use Rattle.base_io.specs.StreamState.{FilesState, Change, change};
ghost use Rattle.run_spec.specs.runs.Call.{call};
ghost use Rattle.session.specs.AskedOutput.{AsksToPrint, AsksForLines};
ghost use Rattle.run_spec.specs.runs.Account.{Account};
ghost use Rattle.opt_skip_only.specs.skip.SkipCommand.{passed_of};
ghost use Rattle.session.specs.All.{on_values_after, all_commands};
ghost use Rattle.session.specs.Run.{IsRun};
ghost use Rattle.run_loop.specs.work.Reported.{HasAccount};
ghost use Rattle.session.specs.Reporting.{AsksToReport, AsksToEdit};
ghost use Rattle.text_path.specs.ScriptAnswer.{AreInTime};
ghost use Rattle.session.specs.InputValues.{IsReadyValueTask, task_of};
ghost use Rattle.session.specs.ValueOutput.{query_of};
ghost use Rattle.cli_args.specs.Requests.{texts, request_of};

use crate::build_command::build;
use crate::commands::{
    Scans, all_commands_have_parts, all_commands_keep_run_spec,
    statuses_of_certificates_have_causes, statuses_of_made_have_causes,
    statuses_of_positions_have_causes, statuses_of_sections_have_causes,
    statuses_of_texts_have_causes, statuses_of_values_have_causes, values_have_headline,
    values_have_one_outcome,
};
use crate::edit_lines::Edits;
use crate::input_values::ValueTask;
use crate::session_state::SessionState;
use crate::value_output::{Printing, Query};
use base_io::{Opener, Sink, Source};
use cli_args::{ArgumentsError, Request, read_arguments};
use cli_errors::exit_line::report_exit;
use cli_spec::exit::Exit;
use cli_spec::read_options::ReadOptions;
use cli_spec::status::Status;
use cli_spec::style::Style;
use cmd_certify::command::certify;
use cmd_gen::command::run_gen_spec;
use cmd_scan::command::search_input;
use cmd_verify::command::verify;
use opt_skip_only::only::OnlyCommand;
use opt_skip_only::only_spec::laws::OneByArguments;
use opt_skip_only::skip::{Over, SkipCommand};
use opt_skip_only::skip_spec::laws::ByArguments;
use run_loop::work::run_reported;
use run_types::{Requested, find_script, find_type, path_exit};
use std::alloc::Global;
use text_path::{Script, lines_in_time, read_path};

// Performs the operation on the values of the input, after the bytes that `--skip` names. With
// `--only`, writes output for one value alone.
fn take_values<S: Source, K: Sink, E: Sink>(
    alloc: Global,
    value_task: ValueTask<'_>,
    over: Over,
    only: Option<u64>,
    input: &mut S,
    out: &mut K,
    err: &mut E,
) -> Status
    requires { IsReadyValueTask value_task }
    ensures { HasAccount on_values_after (passed_of over, (only, task_of value_task.entry))
        (change (S.state input.old) (S.state input.new))
        (change (K.state out.old) (K.state out.new)) (change (E.state err.old) (E.state err.new))
        result }
{
    let work = SessionState::new(alloc, value_task);
    let only_command = OnlyCommand::<OneByArguments, _>::new(work, only);
    let mut skip_command = SkipCommand::<ByArguments, _>::new(only_command, over);
    run_reported(alloc, &mut skip_command, input, out, err)
}

// Reports on the values at the type from FILE and TYPE.
fn report_over<S: Source, K: Sink, E: Sink>(
    alloc: Global,
    requested: Requested,
    query: Query<'_>,
    reading: ReadOptions,
    input: &mut S,
    out: &mut K,
    err: &mut E,
) -> Status
    ensures { (arguments : List (List ℕ)) (files : Change FilesState)
        → AsksToPrint arguments requested (query_of query.entry) reading files
        → Account on_values_after arguments
        (call (change (S.state input.old) (S.state input.new)) files
        (change (K.state out.old) (K.state out.new))
        (change (E.state err.old) (E.state err.new)) result) }
{
    requested.holds();
    let value_task = ValueTask::Print(Printing::Report(&requested, query), reading.limit);
    let over = Over {
        bytes: reading.skip,
        copied: false,
    };
    take_values(alloc, value_task, over, reading.only, input, out, err)
}

// Reads FILE and TYPE, and reports on the values of the input.
fn announce<S: Source, O: Opener, K: Sink, E: Sink>(
    alloc: Global,
    file: &str,
    type_text: &str,
    lines: bool,
    query: Query<'_>,
    reading: ReadOptions,
    input: &mut S,
    files: &mut O,
    out: &mut K,
    err: &mut E,
) -> Status
    ensures { (arguments : List (List ℕ))
        → AsksToReport arguments file.now (asked_type type_text.now lines) (query_of query.entry)
        reading
        → Account on_values_after arguments
        (call (change (S.state input.old) (S.state input.new))
        (change (O.state files.old) (O.state files.new))
        (change (K.state out.old) (K.state out.new))
        (change (E.state err.old) (E.state err.new)) result) }
{
    match find_type(alloc, files, file, type_text, lines, false) {
        Ok(requested) => report_over(alloc, requested, query, reading, input, out, err),
        Err(exit) => report_exit(alloc, err, &exit),
    }
}

// The command `get`: parses PATH, then reads FILE and TYPE.
fn get<S: Source, O: Opener, K: Sink, E: Sink>(
    alloc: Global,
    file: &str,
    type_text: &str,
    path_text: &str,
    style: Style,
    lines: bool,
    reading: ReadOptions,
    input: &mut S,
    files: &mut O,
    out: &mut K,
    err: &mut E,
) -> Status
    ensures { (arguments : List (List ℕ))
        → Asks arguments (get_of file.now type_text.now path_text.now style lines reading)
        → Account on_values_after arguments
        (call (change (S.state input.old) (S.state input.new))
        (change (O.state files.old) (O.state files.new))
        (change (K.state out.old) (K.state out.new))
        (change (E.state err.old) (E.state err.new)) result) }
{
    match read_path(alloc, path_text.as_bytes()) {
        Ok(path) => {
            let query = Query::Part(&path, style);
            announce(
                alloc, file, type_text, lines, query, reading, input, files, out, err,
            )
        }
        Err(fault) => report_exit(alloc, err, &path_exit(fault)),
    }
}

// Edits the values of the input by the lines of SCRIPT.
fn edit_with<S: Source, K: Sink, E: Sink>(
    alloc: Global,
    requested: &Requested,
    script: Script,
    compat: bool,
    reading: ReadOptions,
    input: &mut S,
    out: &mut K,
    err: &mut E,
) -> Status
    requires in_time { AreInTime script.lines }
    ensures { (arguments : List (List ℕ)) (before after : FilesState)
        → AsksForLines arguments requested.now script compat reading (change before after)
        → Account on_values_after arguments
        (call (change (S.state input.old) (S.state input.new)) (change before after)
        (change (K.state out.old) (K.state out.new))
        (change (E.state err.old) (E.state err.new)) result) }
{
    requested.holds();
    let edits = Edits {
        requested,
        script: &script,
        compat,
    };
    let over = Over {
        bytes: reading.skip,
        copied: true,
    };
    let value_task = ValueTask::Edit(edits, reading.limit);
    take_values(alloc, value_task, over, reading.only, input, out, err)
}

// Reads SCRIPT, and edits the values of the input.
fn edit_by<S: Source, O: Opener, K: Sink, E: Sink>(
    alloc: Global,
    requested: &Requested,
    script: &str,
    compat: bool,
    reading: ReadOptions,
    input: &mut S,
    files: &mut O,
    out: &mut K,
    err: &mut E,
) -> Status
    ensures { (arguments : List (List ℕ)) (before : FilesState)
        → AsksToEdit arguments requested.now script.now compat reading
        (change before (O.state files.old))
        → Account on_values_after arguments
        (call (change (S.state input.old) (S.state input.new))
        (change before (O.state files.new)) (change (K.state out.old) (K.state out.new))
        (change (E.state err.old) (E.state err.new)) result) }
{
    lines_in_time();
    match find_script(alloc, files, script, requested.lines(), requested.decimal()) {
        Ok(script) => edit_with(alloc, requested, script, compat, reading, input, out, err),
        Err(exit) => report_exit(alloc, err, &exit),
    }
}

// Reads SCRIPT and edits the values at the type from FILE and TYPE.
fn edit_over<S: Source, O: Opener, K: Sink, E: Sink>(
    alloc: Global,
    requested: Requested,
    script: &str,
    compat: bool,
    reading: ReadOptions,
    input: &mut S,
    files: &mut O,
    out: &mut K,
    err: &mut E,
) -> Status
    ensures { (arguments : List (List ℕ)) (before : FilesState)
        → AsksToEdit arguments requested script.now compat reading
        (change before (O.state files.old))
        → Account on_values_after arguments
        (call (change (S.state input.old) (S.state input.new))
        (change before (O.state files.new)) (change (K.state out.old) (K.state out.new))
        (change (E.state err.old) (E.state err.new)) result) }
{
    edit_by(
        alloc, &requested, script, compat, reading, input, files, out, err,
    )
}

// The command `edit`, which reads FILE and TYPE before SCRIPT.
fn edit<S: Source, O: Opener, K: Sink, E: Sink>(
    alloc: Global,
    file: &str,
    type_text: &str,
    script: &str,
    compat: bool,
    lines: bool,
    decimal: bool,
    reading: ReadOptions,
    input: &mut S,
    files: &mut O,
    out: &mut K,
    err: &mut E,
) -> Status
    ensures { (arguments : List (List ℕ))
        → Asks arguments (edit_of file.now type_text.now script.now compat lines decimal reading)
        → Account on_values_after arguments
        (call (change (S.state input.old) (S.state input.new))
        (change (O.state files.old) (O.state files.new))
        (change (K.state out.old) (K.state out.new))
        (change (E.state err.old) (E.state err.new)) result) }
{
    match find_type(alloc, files, file, type_text, lines, decimal) {
        Ok(requested) => edit_over(
            alloc, requested, script, compat, reading, input, files, out, err,
        ),
        Err(exit) => report_exit(alloc, err, &exit),
    }
}

// Executes a request, and returns the exit status.
fn run_request<S: Source, O: Opener, K: Sink, E: Sink>(
    alloc: Global,
    request: Request<'_>,
    input: &mut S,
    files: &mut O,
    out: &mut K,
    err: &mut E,
) -> Status
    ensures { (arguments : List (List ℕ)) → Asks arguments (request_of request.entry)
        → Account all_commands arguments
        (call (change (S.state input.old) (S.state input.new))
        (change (O.state files.old) (O.state files.new))
        (change (K.state out.old) (K.state out.new))
        (change (E.state err.old) (E.state err.new)) result) }
{
    all_commands_have_parts();
    match request {
        Request::Check {
            file,
            type_text,
            lines,
            reading,
        } => announce(
            alloc,
            file,
            type_text,
            lines,
            Query::Verdict,
            reading,
            input,
            files,
            out,
            err,
        ),
        Request::Show {
            file,
            type_text,
            style,
            lines,
            reading,
        } => announce(
            alloc,
            file,
            type_text,
            lines,
            Query::Text(style),
            reading,
            input,
            files,
            out,
            err,
        ),
        Request::Get {
            file,
            type_text,
            path_text,
            style,
            lines,
            reading,
        } => get(
            alloc, file, type_text, path_text, style, lines, reading, input, files, out, err,
        ),
        Request::Edit {
            file,
            type_text,
            script,
            compat,
            lines,
            decimal,
            reading,
        } => edit(
            alloc, file, type_text, script, compat, lines, decimal, reading, input, files, out, err,
        ),
        Request::Trees {
            file,
            type_text,
            lines,
            reading,
        } => announce(
            alloc,
            file,
            type_text,
            lines,
            Query::Trees,
            reading,
            input,
            files,
            out,
            err,
        ),
        Request::Dump { reading } => take_values(
            alloc,
            ValueTask::Print(Printing::Dump, reading.limit),
            Over {
                bytes: reading.skip,
                copied: false,
            },
            reading.only,
            input,
            out,
            err,
        ),
        Request::Same { reading } => take_values(
            alloc,
            ValueTask::Compare(reading.limit),
            Over {
                bytes: reading.skip,
                copied: false,
            },
            reading.only,
            input,
            out,
            err,
        ),
        Request::Build {
            file,
            type_text,
            lines,
            decimal,
        } => build(
            alloc, file, type_text, lines, decimal, input, files, out, err,
        ),
        Request::Verify {
            file,
            type_text,
            certificate,
            lines,
            reading,
        } => verify(
            alloc,
            file,
            type_text,
            certificate,
            lines,
            reading,
            input,
            files,
            out,
            err,
        ),
        Request::Certify {
            file,
            type_text,
            lines,
            reading,
        } => certify(
            alloc, file, type_text, lines, reading, input, files, out, err,
        ),
        Request::Generate {
            number,
            count,
            type_text,
        } => run_gen_spec(alloc, number, count, type_text, input, out, err),
        Request::Scan { limit } => search_input::<Scans, S, K, E>(alloc, limit, input, out, err),
    }
}

// Runs the command that the arguments request.
fn run_command<S: Source, O: Opener, K: Sink, E: Sink>(
    alloc: Global,
    arguments: &[String],
    input: &mut S,
    files: &mut O,
    out: &mut K,
    err: &mut E,
) -> Status
    ensures { Account all_commands (texts arguments.now)
        (call (change (S.state input.old) (S.state input.new))
        (change (O.state files.old) (O.state files.new))
        (change (K.state out.old) (K.state out.new))
        (change (E.state err.old) (E.state err.new)) result) }
{
    match read_arguments(alloc, arguments) {
        Ok(request) => run_request(alloc, request, input, files, out, err),
        Err(ArgumentsError::Usage) => report_exit(alloc, err, &Exit::Usage),
        Err(ArgumentsError::Memory) => report_exit(alloc, err, &Exit::Memory),
    }
}

/// Runs the command that the arguments request and returns the exit status. Reads the files and the
/// input, and writes the output to `out`. If the run ends with an error, writes one line to `err`.
pub fn run<S: Source, O: Opener, K: Sink, E: Sink>(
    alloc: Global,
    arguments: &[String],
    input: &mut S,
    files: &mut O,
    out: &mut K,
    err: &mut E,
) -> Status
    ensures { IsRun (texts arguments.now)
        (call (change (S.state input.old) (S.state input.new))
        (change (O.state files.old) (O.state files.new))
        (change (K.state out.old) (K.state out.new))
        (change (E.state err.old) (E.state err.new)) result) }
{
    input.reports_bytes();
    out.knows_bytes();
    err.knows_bytes();
    all_commands_keep_run_spec();
    all_commands_have_parts();
    values_have_one_outcome();
    values_have_headline();
    statuses_of_values_have_causes();
    statuses_of_texts_have_causes();
    statuses_of_certificates_have_causes();
    statuses_of_sections_have_causes();
    statuses_of_positions_have_causes();
    statuses_of_made_have_causes();
    run_command(alloc, arguments, input, files, out, err)
}
