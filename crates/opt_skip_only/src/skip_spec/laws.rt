//! The laws of the option `--skip`, as contracts of lemma functions without a body.

ghost use Rattle.run_spec.specs.exit_causes.Causes.{AreExact, Causes};
ghost use Rattle.run_spec.specs.command_sum.CommandSum.{AreDisjoint, IsIdleAt};
ghost use Rattle.cli_spec.specs.Outcome.{Request};
ghost use Rattle.opt_skip_only.specs.skip_spec.SkipRequests.{passed_by};
ghost use Rattle.opt_skip_only.specs.skip_spec.Skipping.{SkippedBytes, skipping};
ghost use Rattle.opt_skip_only.specs.skip_spec.Skipping.{HaveAccountsAtOnce};
ghost use Rattle.opt_skip_only.specs.skip_spec.Skipping.{SpecifyAtOnce};
ghost use Rattle.opt_skip_only.specs.skip_spec.SkipTables.{skipping_tables};
ghost use Rattle.run_spec.specs.runs.CommandLaws.{Follow};
ghost use Rattle.run_spec.specs.runs.Lawful.{AreInTurns, AreLawful};

use run_spec::exit_causes::laws::{Meant, Of, causes_of_tables};
use run_spec::runs::laws::Act;
use std::marker::PhantomData;

/// The parameter of the option `--skip`: what a request skips of the input.
pub trait PassesOver {
    ghost passed_by: { Request → SkippedBytes };
}

/// The value of the option `--skip` in the arguments.
pub struct ByArguments;

impl PassesOver for ByArguments {
    ghost passed_by = { passed_by };
}

/// Commands with the option `--skip`, and their exit status specification.
pub struct Skipping<P, C>(PhantomData<P>, PhantomData<C>);

impl<P: PassesOver, C: Act> Act for Skipping<P, C> {
    ghost acts = { SkippedBytes × C.acts };

    ghost commands = { skipping P.passed_by C.commands };
}

impl<P: PassesOver, C: Meant> Meant for Skipping<P, C> {
    ghost acts = { SkippedBytes × C.acts };

    ghost commands = { skipping P.passed_by C.commands };

    ghost tables = { skipping_tables C.tables };
}

/// Proves that lawful commands stay lawful with `--skip`.
pub fn skipping_is_lawful<P: PassesOver, C: Act>()
    requires { AreLawful C.commands }
    ensures { AreLawful (skipping P.passed_by C.commands) }
{}

/// Proves that commands that fetch their files turn by turn fetch their files turn by turn with
/// `--skip`.
pub fn skipping_takes_turns<P: PassesOver, C: Act>()
    requires { AreInTurns C.commands }
    ensures { AreInTurns (skipping P.passed_by C.commands) }
{}

/// Proves that `--skip` adds no requests: if the commands ignore a request, the commands with
/// `--skip` ignore the request.
pub fn skipping_is_idle<P: PassesOver, C: Act>()
    ensures { (request : Request) → IsIdleAt C.commands request
        → IsIdleAt (skipping P.passed_by C.commands) request }
{}

/// Proves that commands with `--skip` are disjoint from a set if the commands without `--skip` are
/// disjoint from the set.
pub fn skipping_stands_disjoint<P: PassesOver, C: Act, D: Act>()
    requires { AreDisjoint C.commands D.commands }
    ensures { AreDisjoint (skipping P.passed_by C.commands) D.commands }
{}

/// Proves that a set is disjoint from commands with `--skip` if the set is disjoint from the
/// commands without `--skip`.
pub fn others_stand_disjoint<P: PassesOver, C: Act, D: Act>()
    requires { AreDisjoint D.commands C.commands }
    ensures { AreDisjoint D.commands (skipping P.passed_by C.commands) }
{}

/// Proves that the tables of commands with `--skip` are exact if the tables of the commands are
/// exact.
pub fn skipping_has_exit_statuses<P: PassesOver, M: Meant>()
    requires { AreExact M.commands M.tables }
    ensures { AreExact (skipping P.passed_by M.commands) (skipping_tables M.tables) }
{}

/// Proves the exit status specification of commands with `--skip`: each status has its cause, and
/// each cause has its status.
pub fn causes_after_skipping<P: PassesOver, M: Meant>()
    requires lawful { AreLawful M.commands }
    requires turns { AreInTurns M.commands }
    requires exact { AreExact M.commands M.tables }
    ensures { let c = skipping P.passed_by M.commands in
        Follow c (Causes c (skipping_tables M.tables)) }
{
    skipping_is_lawful::<P, Of<M>>();
    skipping_takes_turns::<P, Of<M>>();
    skipping_has_exit_statuses::<P, M>();
    causes_of_tables::<Skipping<P, M>>();
}

/// Proves that `--skip` changes nothing if the arguments skip no byte. An account by the commands
/// is an account with `--skip`. The specification with `--skip` implies the specification of the
/// commands.
pub fn skipping_run_spec_at_once<P: PassesOver, C: Act>()
    ensures account { HaveAccountsAtOnce P.passed_by C.commands }
    ensures run_spec { SpecifyAtOnce P.passed_by C.commands }
{}
