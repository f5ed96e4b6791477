//! The laws of the small commands.

ghost use Rattle.std.specs.Prelude.{ℕ, List};
ghost use Rattle.run_spec.specs.runs.Lawful.{AreLawfulAt};
ghost use Rattle.run_loop.specs.work.Reported.{ReportsEnvironment};
ghost use Rattle.run_loop.specs.examples.SmallCommands.{reporting, lines, bytes_but};

use crate::examples::{BytesBut, Lines, Reporting};
use crate::work::environment_is_known;

/// Proves that the small commands are lawful for all tasks. A small command returns a status of the
/// environment only if the environment caused the status. `small_commands_report_environment` is a
/// lemma function, which does nothing at run time.
pub fn small_commands_report_environment()
    ensures reporting { ((a : List ℕ) → AreLawfulAt reporting a) × ReportsEnvironment reporting }
    ensures lines { ((a : Unit {0}) → AreLawfulAt lines a) × ReportsEnvironment lines }
    ensures bytes { ((a : ℕ) → AreLawfulAt bytes_but a) × ReportsEnvironment bytes_but }
{
    environment_is_known::<Reporting<'static>>();
    environment_is_known::<Lines>();
    environment_is_known::<BytesBut>();
}
