//! The theorems about commands on values, as contracts of lemma functions without a body.

ghost use Rattle.cli_spec.specs.Outcome.{Language, Task};
ghost use Rattle.run_spec.specs.runs.RunLaws.{AnswerOnce, KeepRunSpec};
ghost use Rattle.run_spec.specs.runs.Lawful.{AreLawful, AreInTurns};
ghost use Rattle.run_spec.specs.runs.LawfulLanguage.{IsLawful};
ghost use Rattle.run_spec.specs.value_commands.Tasks.{commands};

use crate::runs::laws::{Act, lawful_commands, lawful_commands_keep_run_spec};
use std::marker::PhantomData;

/// A language: what declarations, types and lines of scripts are, and how a text is read as one of
/// these.
pub trait Prints {
    ghost declarations: { Type 0 };

    ghost types: { Type 0 };

    ghost lines: { Type 0 };

    ghost language: { Language declarations types lines };
}

/// The commands on values, over a language.
pub struct OnValues<L>(PhantomData<L>);

impl<L: Prints> Act for OnValues<L> {
    ghost acts = { Task L.types L.lines };

    ghost commands = { commands L.language };
}

/// States that the commands on values are lawful if the language is lawful.
pub fn commands_are_lawful<L: Prints>()
    requires { IsLawful L.language }
    ensures { AreLawful (commands L.language) }
{}

/// States that arguments, files and an input have at most one outcome. The input contains at most
/// one exit reason. The exit reason remains if more bytes follow, and comes last.
pub fn commands_answer_once<L: Prints>()
    requires { IsLawful L.language }
    ensures { AnswerOnce (commands L.language) }
{
    commands_are_lawful::<L>();
    lawful_commands::<OnValues<L>>();
}

/// States that the commands request their files turn by turn.
pub fn commands_take_turns<L: Prints>()
    requires { IsLawful L.language }
    ensures { AreInTurns (commands L.language) }
{}

/// States that the specification of a run follows from the account of the run, and that all further
/// properties follow from the specification.
pub fn commands_keep_run_spec<L: Prints>()
    requires { IsLawful L.language }
    ensures { KeepRunSpec (commands L.language) }
{
    commands_are_lawful::<L>();
    commands_take_turns::<L>();
    lawful_commands_keep_run_spec::<OnValues<L>>();
}
