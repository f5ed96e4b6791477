//! A run, and the line on standard error that reports the exit reason of the run.

ghost use Rattle.std.specs.Prelude.{◌≡◌, []};
ghost use Rattle.base_io.specs.StreamState.{change};
ghost use Rattle.run_loop.specs.work.Reported.{ending_status, IsReported, HasAccount};
ghost use Rattle.run_loop.specs.work.Reported.{ReportsEnvironment};

use crate::work::{Work, run_work};
use base_io::{Sink, Source};
use cli_errors::exit_line::{Error, report_exit};
use cli_spec::status::Status;
use std::alloc::Global;

/// Returns the status of a run that reached the end of its input. If the run was without errors,
/// the status is 0. If an output has an error, the status is 1.
fn status_of_all(ok: bool) -> Status
    ensures { result ≡ ending_status ok }
{
    if ok { Status::AllOk } else { Status::No }
}

/// If the run ended early, writes the line of the exit reason to `err`. Returns the exit status.
fn report<E: Sink>(alloc: Global, err: &mut E, ended: Result<bool, Error>) -> Status
    ensures { IsReported ended (change (E.state err.old) (E.state err.new)) result }
{
    match ended {
        Ok(ok) => status_of_all(ok),
        Err(Error::Exit(exit)) => report_exit(alloc, err, &exit),
        Err(Error::WriteFault) => Status::WriteFault,
    }
}

/// Runs the command on the input and returns the exit status. If the run ends early, reports the
/// exit reason on `err`.
pub fn run_reported<W: Work, S: Source, K: Sink, E: Sink>(
    alloc: Global,
    work: &mut W,
    input: &mut S,
    out: &mut K,
    err: &mut E,
) -> Status
    requires { W.has work.old [] [] }
    ensures account { HasAccount W.commands (W.act work.old)
        (change (S.state input.old) (S.state input.new))
        (change (K.state out.old) (K.state out.new))
        (change (E.state err.old) (E.state err.new)) result }
    ensures unread { (W.commands.Reads (W.act work.old) → ⊥) → input.new ≡ input.old }
{
    let ended = run_work(alloc, work, input, out);
    report(alloc, err, ended)
}

/// Proves that a lawful command returns a status of the environment (6 to 10) only if the
/// environment caused the status. `environment_is_known` is a lemma function, which does nothing at
/// run time.
pub fn environment_is_known<W: Work>()
    ensures { ReportsEnvironment W.commands }
{}
