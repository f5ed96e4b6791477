//! Lemma functions. A lemma function does nothing at run time: its contract is a law.

ghost use Rattle.std.specs.Prelude.{ℕ, Option};
ghost use Rattle.cli_spec.specs.Outcome.{Request};
ghost use Rattle.run_spec.specs.runs.CommandLaws.{Follow};
ghost use Rattle.run_spec.specs.runs.Lawful.{AreLawful, AreInTurns};
ghost use Rattle.run_spec.specs.runs.RunLaws.{AnswerOnce, KeepRunSpec};
ghost use Rattle.run_spec.specs.exit_causes.Causes.{AreExact, Causes};
ghost use Rattle.cmd_scan.specs.spec.Laws.{IsIdleElsewhere, StandsDisjointFrom, ReportsPositions};
ghost use Rattle.cmd_scan.specs.spec.ExitStatuses.{searching_tables, IsNeverStopped};
ghost use Rattle.cmd_scan.specs.spec.Searching.{searching};

use run_spec::exit_causes::laws::{Meant, causes_of_tables};
use run_spec::runs::laws::{Act, lawful_commands, lawful_commands_keep_run_spec};
use std::marker::PhantomData;

/// The parameter of the command: the limit of 64-bit words in a value, for each request that asks
/// for a search.
pub trait Searches {
    ghost limit_by: { Request → Option ℕ };
}

/// The command `scan`, and its exit status specification.
pub struct OnStretches<S>(PhantomData<S>);

impl<S: Searches> Act for OnStretches<S> {
    ghost acts = { ℕ };

    ghost commands = { searching S.limit_by };
}

impl<S: Searches> Meant for OnStretches<S> {
    ghost acts = { ℕ };

    ghost commands = { searching S.limit_by };

    ghost tables = { searching_tables };
}

/// Proves that the command is lawful.
pub fn searching_is_lawful<S: Searches>()
    ensures { AreLawful (searching S.limit_by) }
{}

/// Proves that the command fetches its files in turn. The command `scan` fetches no file.
pub fn searching_takes_turns<S: Searches>()
    ensures { AreInTurns (searching S.limit_by) }
{}

/// Proves that arguments and input have at most one outcome, and that no input contains an exit
/// reason.
pub fn searching_answers_once<S: Searches>()
    ensures { AnswerOnce (searching S.limit_by) }
{
    searching_is_lawful::<S>();
    lawful_commands::<OnStretches<S>>();
}

/// Proves that the specification of a run follows from its account, and that the other laws follow
/// from the specification.
pub fn searching_keeps_run_spec<S: Searches>()
    ensures { KeepRunSpec (searching S.limit_by) }
{
    searching_is_lawful::<S>();
    searching_takes_turns::<S>();
    lawful_commands_keep_run_spec::<OnStretches<S>>();
}

/// Proves that the command does nothing for a request that is no search.
pub fn searching_is_idle_elsewhere<S: Searches>()
    ensures { IsIdleElsewhere S.limit_by }
{}

/// Proves that the command and each command set that does nothing for searches are disjoint: no
/// request asks for commands of two disjoint sets.
pub fn searching_stands_disjoint<S: Searches, C: Act>()
    ensures { StandsDisjointFrom S.limit_by C.commands }
{}

/// Proves that the output for a whole input is the lines of the positions of the input's values. An
/// input has one list of positions.
pub fn searching_reports_positions<S: Searches>()
    ensures { ReportsPositions S.limit_by }
{}

/// Proves that the tables of exit statuses are exact: each input ends without errors.
pub fn searching_has_exit_statuses<S: Searches>()
    ensures { AreExact (searching S.limit_by) searching_tables }
{}

/// Proves the exit status specification: each status has its cause, and each cause has its status.
/// Statuses 1, 3, 4, 5, 8, 11 and 12 never occur.
pub fn causes_of_searching<S: Searches>()
    ensures causes { let c = searching S.limit_by in Follow c (Causes c searching_tables) }
    ensures others { Follow (searching S.limit_by) (λ arguments. IsNeverStopped) }
{
    searching_is_lawful::<S>();
    searching_takes_turns::<S>();
    searching_has_exit_statuses::<S>();
    causes_of_tables::<OnStretches<S>>();
}
