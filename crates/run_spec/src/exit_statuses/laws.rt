//! The theorem about exit statuses, as the contract of a lemma function without a body.

ghost use Rattle.run_spec.specs.exit_causes.Causes.{AreExact};
ghost use Rattle.run_spec.specs.value_commands.Tasks.{commands};
ghost use Rattle.run_spec.specs.exit_statuses.Tables.{values_tables};
ghost use Rattle.cli_spec.specs.Outcome.{Task};

use crate::exit_causes::laws::Meant;
use crate::value_commands::laws::Prints;
use std::marker::PhantomData;

/// The commands on values, with their exit status specification.
pub struct MeantValues<L>(PhantomData<L>);

impl<L: Prints> Meant for MeantValues<L> {
    ghost acts = { Task L.types L.lines };

    ghost commands = { commands L.language };

    ghost tables = { values_tables L.language };
}

/// States that the tables are exact. The tables describe how values end a run, how an input ends,
/// and how the arguments and the files end a run.
pub fn values_have_exit_statuses<L: Prints>()
    ensures { AreExact (commands L.language) (values_tables L.language) }
{}
