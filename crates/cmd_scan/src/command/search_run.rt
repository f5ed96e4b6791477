//! A whole run of the command.

ghost use Rattle.std.specs.Prelude.{◌≡◌, ℕ, List, Some};
ghost use Rattle.cli_spec.specs.Outcome.{Request, Asks};
ghost use Rattle.base_io.specs.StreamState.{FilesState, change};
ghost use Rattle.run_spec.specs.runs.Account.{Account};
ghost use Rattle.run_spec.specs.runs.Call.{call};
ghost use Rattle.cmd_scan.specs.spec.Searching.{searching};

use crate::command::searching::Searching;
use crate::spec::laws::Searches;
use base_io::{Sink, Source};
use cli_spec::status::Status;
use run_loop::work::run_reported;
use std::alloc::Global;

/// Searches the input for values of at most `limit` 64-bit words, and returns the exit status. Does
/// not use any file.
pub fn search_input<S: Searches, I: Source, K: Sink, E: Sink>(
    alloc: Global,
    limit: u64,
    input: &mut I,
    out: &mut K,
    err: &mut E,
) -> Status
    ensures { (words : List (List ℕ)) (request : Request) → Asks words request
        → S.limit_by request ≡ Some limit → (files : FilesState)
        → Account (searching S.limit_by) words
        (call (change (I.state input.old) (I.state input.new)) (change files files)
        (change (K.state out.old) (K.state out.new))
        (change (E.state err.old) (E.state err.new)) result) }
{
    let mut work = Searching::<S>::new(alloc, limit);
    run_reported(alloc, &mut work, input, out, err)
}
