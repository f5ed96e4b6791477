//! Lemma functions, which do nothing at run time. The contract of each function is a law.

ghost use Rattle.run_spec.specs.runs.CommandLaws.{Follow};
ghost use Rattle.run_spec.specs.runs.Lawful.{AreLawful, AreInTurns};
ghost use Rattle.run_spec.specs.runs.LawfulLanguage.{IsLawful};
ghost use Rattle.run_spec.specs.runs.RunLaws.{AnswerOnce, KeepRunSpec};
ghost use Rattle.cmd_gen.specs.spec.GenSpec.{Making, gen_spec};
ghost use Rattle.cmd_gen.specs.spec.Laws.{IsIdleElsewhere};
ghost use Rattle.cmd_gen.specs.spec.ExitStatuses.{GenCauses};

use run_spec::runs::laws::{Act, lawful_commands, lawful_commands_keep_run_spec};
use run_spec::value_commands::laws::Prints;
use std::marker::PhantomData;

/// The command `gen` over the language `L`, with its exit status specification.
pub struct OnMade<L>(PhantomData<L>);

impl<L: Prints> Act for OnMade<L> {
    ghost acts = { Making L.types };

    ghost commands = { gen_spec L.language };
}

/// Proves that the command is lawful if the language is lawful.
pub fn gen_spec_is_lawful<L: Prints>()
    requires { IsLawful L.language }
    ensures { AreLawful (gen_spec L.language) }
{}

/// Proves that the command fetches its files in turn. The law is trivial, because the command
/// fetches no file.
pub fn gen_spec_takes_turns<L: Prints>()
    ensures { AreInTurns (gen_spec L.language) }
{}

/// Proves that the arguments have at most one outcome, for all files and inputs.
pub fn gen_spec_answers_once<L: Prints>()
    requires { IsLawful L.language }
    ensures { AnswerOnce (gen_spec L.language) }
{
    gen_spec_is_lawful::<L>();
    lawful_commands::<OnMade<L>>();
}

/// Proves that the account of a run implies the specification of the run, and that the
/// specification implies the other laws.
pub fn gen_spec_keeps_run_spec<L: Prints>()
    requires { IsLawful L.language }
    ensures { KeepRunSpec (gen_spec L.language) }
{
    gen_spec_is_lawful::<L>();
    gen_spec_takes_turns::<L>();
    lawful_commands_keep_run_spec::<OnMade<L>>();
}

/// Proves that the command does nothing for a request of another command.
pub fn gen_spec_is_idle_elsewhere<L: Prints>()
    ensures { IsIdleElsewhere L.language }
{}

/// Proves the exit status specification (`GenCauses`). A run has exactly the status that its
/// arguments and TYPE determine, unless memory ran out or writing to out or err failed. If the
/// status is 0 or 1, the output is the line of the value. No status depends on the input or on
/// files, because the command reads none.
pub fn causes_of_gen_spec<L: Prints>()
    requires { IsLawful L.language }
    ensures { Follow (gen_spec L.language) (GenCauses L.language) }
{
    gen_spec_is_lawful::<L>();
}
