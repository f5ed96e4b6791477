//! The theorems about causes of statuses, as contracts of lemma functions without a body.

ghost use Rattle.run_spec.specs.runs.CommandLaws.{Follow};
ghost use Rattle.run_spec.specs.runs.Commands.{Commands};
ghost use Rattle.run_spec.specs.runs.Lawful.{AreLawful, AreInTurns};
ghost use Rattle.run_spec.specs.exit_causes.Causes.{Tables, HaveShown, AreExact, Causes};

use crate::runs::laws::{Act, files_in_turns, run_spec_of_commands};
use std::marker::PhantomData;

/// Commands together with the tables of their exit statuses.
pub trait Meant {
    ghost acts: { Type 0 };

    ghost commands: { Commands acts };

    ghost tables: { Tables acts };
}

/// The commands of `M` without their tables.
pub struct Of<M>(PhantomData<M>);

impl<M: Meant> Act for Of<M> {
    ghost acts = { M.acts };

    ghost commands = { M.commands };
}

/// States that an input determines a status if and only if the tables list the status for the
/// input, if the tables are exact.
pub fn tables_show<M: Meant>()
    requires { AreExact M.commands M.tables }
    ensures { HaveShown M.commands M.tables }
{}

/// States that each returned status has its cause, and that each cause leads to its status, if the
/// tables are exact.
pub fn causes_of_tables<M: Meant>()
    requires lawful { AreLawful M.commands }
    requires turns { AreInTurns M.commands }
    requires exact { AreExact M.commands M.tables }
    ensures { Follow M.commands (Causes M.commands M.tables) }
{
    run_spec_of_commands::<Of<M>>();
    files_in_turns::<Of<M>>();
}
