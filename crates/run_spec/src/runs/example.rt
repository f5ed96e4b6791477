//! An example of lawful commands, which shows that the theorems are not vacuous.

ghost use Rattle.std.specs.Prelude.{Bool};
ghost use Rattle.run_spec.specs.runs.CommandLaws.{HaveOneOutcome, ArePromised, Follow};
ghost use Rattle.run_spec.specs.runs.RunCauses.{OnlyOpenFault};
ghost use Rattle.run_spec.specs.runs.Example.{example, OutputsRest, OutputsUnread};
ghost use Rattle.run_spec.specs.runs.RunSpec.{IfExit};

use crate::runs::laws::{Act, files_in_turns, lawful_commands, promised, run_spec_of_commands};

impl Act for bool {
    ghost acts = { Bool };

    ghost commands = { example };
}

/// States that the example has at most one outcome. The example's command reads a file, and repeats
/// each line of the input up to the first line that the command refuses.
pub fn example_has_one_outcome()
    ensures { HaveOneOutcome example }
{
    lawful_commands::<bool>();
}

/// States that the example satisfies the specification of a run, and what follows from the
/// specification.
pub fn example_has_run_spec()
    ensures account { ArePromised example }
    ensures exit { Follow example (IfExit example) }
    ensures open_fault { Follow example (OnlyOpenFault example) }
{
    promised::<bool>();
    run_spec_of_commands::<bool>();
    files_in_turns::<bool>();
}

/// States two outcomes of the example: a reply if no input is read, and the output of the bytes
/// after the last line feed.
pub fn example_outputs()
    ensures unread { OutputsUnread }
    ensures rest { OutputsRest }
{}
