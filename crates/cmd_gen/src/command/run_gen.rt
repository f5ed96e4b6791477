//! A whole run of the command `gen`.

ghost use Rattle.std.specs.Prelude.{◌≡◌, ◌^◌, ◌<◌, ◌≤◌, List, ℕ};
ghost use Rattle.cli_spec.specs.Outcome.{Asks, own, generate};
ghost use Rattle.base_io.specs.StreamState.{FilesState, change};
ghost use Rattle.run_spec.specs.runs.Account.{Account};
ghost use Rattle.run_spec.specs.runs.Call.{call};
ghost use Rattle.run_loop.specs.work.Reported.{HasAccount};
ghost use Rattle.run_types.specs.Language.{declared_types};
ghost use Rattle.cmd_gen.specs.spec.GenSpec.{gen_spec};
ghost use Rattle.cmd_gen.specs.command.OutputLines.{making_of};

use crate::command::item_types::find_item_type;
use crate::command::making::Generating;
use base_io::{Sink, Source};
use cli_errors::exit_line::report_exit;
use cli_spec::exit::Exit;
use cli_spec::status::Status;
use run_loop::work::run_reported;
use run_types::Requested;
use std::alloc::Global;

/// The maximum value of the argument NUMBER.
const GREATEST_NUMBER: u64 = 2147483647;

/// The maximum value of the argument COUNT.
const GREATEST_COUNT: u64 = 1000000;

/// Generates the value and writes the line of the value.
fn generate_at<S: Source, K: Sink, E: Sink>(
    alloc: Global,
    number: u64,
    count: u64,
    requested: &Requested,
    input: &mut S,
    out: &mut K,
    err: &mut E,
) -> Status
    requires number { number < 2 ^ 31 }
    requires count { count ≤ 1000000 }
    ensures account { HasAccount (gen_spec declared_types) (making_of number count requested.now)
        (change (S.state input.old) (S.state input.new))
        (change (K.state out.old) (K.state out.new))
        (change (E.state err.old) (E.state err.new)) result }
    ensures unread { input.new ≡ input.old }
{
    requested.holds();
    let mut work = Generating {
        number,
        count,
        requested,
    };
    run_reported(alloc, &mut work, input, out, err)
}

/// Runs `gen NUMBER COUNT TYPE` and returns the exit status. Does not use the input or any file.
pub fn run_gen_spec<S: Source, K: Sink, E: Sink>(
    alloc: Global,
    number: u64,
    count: u64,
    type_text: &str,
    input: &mut S,
    out: &mut K,
    err: &mut E,
) -> Status
    ensures account { (words : List (List ℕ))
        → Asks words (own (generate number count type_text.now))
        → (files : FilesState) → Account (gen_spec declared_types) words
        (call (change (S.state input.old) (S.state input.new)) (change files files)
        (change (K.state out.old) (K.state out.new))
        (change (E.state err.old) (E.state err.new)) result) }
    ensures unread { input.new ≡ input.old }
{
    if number > GREATEST_NUMBER || count > GREATEST_COUNT {
        return report_exit(alloc, err, &Exit::Usage);
    }
    match find_item_type(alloc, type_text) {
        Ok(requested) => generate_at(alloc, number, count, &requested, input, out, err),
        Err(exit) => report_exit(alloc, err, &exit),
    }
}
