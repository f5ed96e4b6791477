//! The laws of the option `--only`, as contracts of lemma functions without a body.

ghost use Rattle.std.specs.Prelude.{ℕ, Option};
ghost use Rattle.run_spec.specs.exit_causes.Causes.{AreExact};
ghost use Rattle.run_spec.specs.command_sum.CommandSum.{AreDisjoint, IsIdleAt};
ghost use Rattle.cli_spec.specs.Outcome.{Request};
ghost use Rattle.opt_skip_only.specs.only_spec.OnlyRequests.{picked_by};
ghost use Rattle.opt_skip_only.specs.only_spec.OnlyCommand.{only_command, HaveAccountsOfEach};
ghost use Rattle.opt_skip_only.specs.only_spec.OnlyCommand.{SpecifyOfEach};
ghost use Rattle.opt_skip_only.specs.only_spec.OnlyTables.{only_command_tables};
ghost use Rattle.run_spec.specs.runs.Lawful.{AreInTurns, AreLawful};

use run_spec::exit_causes::laws::Meant;
use run_spec::runs::laws::Act;
use std::marker::PhantomData;

/// The parameter of the option `--only`: the item that a request selects.
pub trait PicksOne {
    ghost picked_by: { Request → Option ℕ };
}

/// The value of the option `--only` in the arguments.
pub struct OneByArguments;

impl PicksOne for OneByArguments {
    ghost picked_by = { picked_by };
}

/// Commands with the option `--only`.
pub struct OnlyCommand<P, C>(PhantomData<P>, PhantomData<C>);

impl<P: PicksOne, C: Act> Act for OnlyCommand<P, C> {
    ghost acts = { Option ℕ × C.acts };

    ghost commands = { only_command P.picked_by C.commands };
}

impl<P: PicksOne, C: Meant> Meant for OnlyCommand<P, C> {
    ghost acts = { Option ℕ × C.acts };

    ghost commands = { only_command P.picked_by C.commands };

    ghost tables = { only_command_tables C.commands C.tables };
}

/// Proves that lawful commands stay lawful with `--only`.
pub fn only_command_is_lawful<P: PicksOne, C: Act>()
    requires { AreLawful C.commands }
    ensures { AreLawful (only_command P.picked_by C.commands) }
{}

/// Proves that commands that fetch their files turn by turn fetch their files turn by turn with
/// `--only`.
pub fn only_command_takes_turns<P: PicksOne, C: Act>()
    requires { AreInTurns C.commands }
    ensures { AreInTurns (only_command P.picked_by C.commands) }
{}

/// Proves that `--only` adds no requests: if the commands ignore a request, the commands with
/// `--only` ignore the request.
pub fn only_command_is_idle<P: PicksOne, C: Act>()
    ensures { (request : Request) → IsIdleAt C.commands request
        → IsIdleAt (only_command P.picked_by C.commands) request }
{}

/// Proves that commands with `--only` are disjoint from a set if the commands without `--only` are
/// disjoint from the set.
pub fn only_command_stands_disjoint<P: PicksOne, C: Act, D: Act>()
    requires { AreDisjoint C.commands D.commands }
    ensures { AreDisjoint (only_command P.picked_by C.commands) D.commands }
{}

/// Proves that `--only` changes nothing if the arguments select all items. An account by the
/// commands is an account with `--only`. The specification with `--only` implies the specification
/// of the commands.
pub fn only_command_run_spec_of_each<P: PicksOne, C: Act>()
    ensures account { HaveAccountsOfEach P.picked_by C.commands }
    ensures run_spec { SpecifyOfEach P.picked_by C.commands }
{}

/// Proves that the tables of commands with `--only` are exact if the tables of the commands are
/// exact.
pub fn only_command_has_exit_statuses<P: PicksOne, M: Meant>()
    requires { AreExact M.commands M.tables }
    ensures { AreExact (only_command P.picked_by M.commands)
        (only_command_tables M.commands M.tables) }
{}
