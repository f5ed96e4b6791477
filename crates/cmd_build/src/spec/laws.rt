//! The theorems about the command on texts, as contracts of lemma functions without a body.

ghost use Rattle.std.specs.Prelude.{ℕ, List};
ghost use Rattle.cli_spec.specs.Outcome.{Language};
ghost use Rattle.run_spec.specs.runs.CommandLaws.{Follow};
ghost use Rattle.run_spec.specs.runs.Lawful.{AreLawful, AreInTurns};
ghost use Rattle.run_spec.specs.runs.LawfulLanguage.{IsLawful};
ghost use Rattle.run_spec.specs.runs.RunLaws.{AnswerOnce, KeepRunSpec};
ghost use Rattle.run_spec.specs.exit_causes.Causes.{AreExact, Causes};
ghost use Rattle.run_spec.specs.command_sum.CommandSum.{AreDisjoint};
ghost use Rattle.run_spec.specs.value_commands.Tasks.{commands};
ghost use Rattle.cmd_build.specs.spec.Laws.{IsIdleElsewhere};
ghost use Rattle.cmd_build.specs.spec.ExitStatuses.{texts_tables, IsNeverRefused};
ghost use Rattle.cmd_build.specs.spec.InputTexts.{Built, building, IsReadOnce};

use run_spec::exit_causes::laws::{Meant, causes_of_tables};
use run_spec::runs::laws::{Act, lawful_commands, lawful_commands_keep_run_spec};
use std::marker::PhantomData;

/// A reading of texts: as declarations, types and lines of scripts, and as lines of the input at a
/// type.
pub trait Builds {
    ghost declarations: { Type 0 };

    ghost types: { Type 0 };

    ghost lines: { Type 0 };

    ghost language: { Language declarations types lines };

    ghost TextOf: { types → List ℕ → Built → Type 0 };
}

/// The command on texts, with its exit status specification.
pub struct OnTexts<B>(PhantomData<B>);

impl<B: Builds> Act for OnTexts<B> {
    ghost acts = { B.types };

    ghost commands = { building B.language B.TextOf };
}

impl<B: Builds> Meant for OnTexts<B> {
    ghost acts = { B.types };

    ghost commands = { building B.language B.TextOf };

    ghost tables = { texts_tables B.language B.TextOf };
}

/// States that the command on texts is lawful, if the language is lawful and each line has at most
/// one reading.
pub fn building_is_lawful<B: Builds>()
    requires language { IsLawful B.language }
    requires once { IsReadOnce B.language B.TextOf }
    ensures { AreLawful (building B.language B.TextOf) }
{}

/// States that the command requests its file in one turn.
pub fn building_takes_turns<B: Builds>()
    requires { IsLawful B.language }
    ensures { AreInTurns (building B.language B.TextOf) }
{}

/// States that arguments, a file and an input have at most one outcome. The input contains at most
/// one exit reason. The exit reason remains if more bytes follow, and comes last.
pub fn building_answers_once<B: Builds>()
    requires language { IsLawful B.language }
    requires once { IsReadOnce B.language B.TextOf }
    ensures { AnswerOnce (building B.language B.TextOf) }
{
    building_is_lawful::<B>();
    lawful_commands::<OnTexts<B>>();
}

/// States that the specification of a run follows from the account of the run, and that all further
/// properties follow from the specification.
pub fn building_keeps_run_spec<B: Builds>()
    requires language { IsLawful B.language }
    requires once { IsReadOnce B.language B.TextOf }
    ensures { KeepRunSpec (building B.language B.TextOf) }
{
    building_is_lawful::<B>();
    building_takes_turns::<B>();
    lawful_commands_keep_run_spec::<OnTexts<B>>();
}

/// States that no request belongs to both the commands on values and the command on texts. The
/// command on texts ignores each request that is not its own.
pub fn building_stands_disjoint<B: Builds>()
    ensures idle { IsIdleElsewhere B.language B.TextOf }
    ensures disjoint { AreDisjoint (commands B.language) (building B.language B.TextOf) }
{}

/// States that the tables are exact. The tables describe how lines end a run, how an input ends,
/// and how the arguments and the file end a run.
pub fn texts_have_exit_statuses<B: Builds>()
    ensures { AreExact (building B.language B.TextOf) (texts_tables B.language B.TextOf) }
{}

/// States that each returned status has its cause, and that each cause leads to its status. The
/// statuses 4 and 11 are never returned.
pub fn causes_of_texts<B: Builds>()
    requires language { IsLawful B.language }
    requires once { IsReadOnce B.language B.TextOf }
    ensures causes { let c = building B.language B.TextOf in
        Follow c (Causes c (texts_tables B.language B.TextOf)) }
    ensures others { Follow (building B.language B.TextOf) (λ arguments. IsNeverRefused) }
{
    building_is_lawful::<B>();
    building_takes_turns::<B>();
    texts_have_exit_statuses::<B>();
    causes_of_tables::<OnTexts<B>>();
}
