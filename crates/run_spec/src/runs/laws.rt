//! The theorems about runs, as contracts of lemma functions without a body.

ghost use Rattle.run_spec.specs.runs.RunCauses.{AreAsKnown, AreMeant, IfAlone, IfArguments};
ghost use Rattle.run_spec.specs.runs.RunCauses.{OnlyOpenFault};
ghost use Rattle.run_spec.specs.runs.RunCauses.{OnlyTooLong, IfMissing, IfFileTooLong, IfFiles};
ghost use Rattle.run_spec.specs.runs.RunCauses.{IfInputTooLong, IfInputFails, IfMemory};
ghost use Rattle.run_spec.specs.runs.RunCauses.{IfWriteFault};
ghost use Rattle.run_spec.specs.runs.RunCauses.{IsDecided, IsExact, IsComplete};
ghost use Rattle.run_spec.specs.runs.CommandLaws.{ArePromised, Follow};
ghost use Rattle.run_spec.specs.runs.Commands.{Commands};
ghost use Rattle.run_spec.specs.runs.Lawful.{AreLawful, AreInTurns};
ghost use Rattle.run_spec.specs.runs.Environment.{OnlyReadFault, OnlyWriteFault};
ghost use Rattle.run_spec.specs.runs.RunLaws.{AnswerOnce, KeepRunSpec};
ghost use Rattle.run_spec.specs.runs.RunSpec.{Headline, HasStatus, IfExit, IfEnd, IfUsage};
ghost use Rattle.run_spec.specs.runs.StreamLaws.{HasOneStream};

/// States that each list of bytes is exactly one list of values, followed by exactly one kind of
/// end.
pub fn one_stream()
    ensures { HasOneStream }
{}

/// A command in the general form: its tasks, the files that it requests, and its output for each
/// item of the input.
pub trait Act {
    ghost acts: { Type 0 };

    ghost commands: { Commands acts };
}

/// States that lawful commands have at most one outcome. The input contains at most one exit
/// reason. The exit reason remains if more bytes follow, and comes last.
pub fn lawful_commands<A: Act>()
    requires { AreLawful A.commands }
    ensures { AnswerOnce A.commands }
{}

/// States that the specification of a run follows from the account of the run, if the commands are
/// lawful.
pub fn promised<A: Act>()
    requires { AreLawful A.commands }
    ensures { ArePromised A.commands }
{}

/// States what follows from the specification of a run: when a status must be returned, and what a
/// returned status means.
pub fn run_spec_of_commands<A: Act>()
    requires { AreLawful A.commands }
    ensures headline { Follow A.commands (Headline A.commands) }
    ensures status { Follow A.commands (HasStatus A.commands) }
    ensures exit { Follow A.commands (IfExit A.commands) }
    ensures end { Follow A.commands (IfEnd A.commands) }
    ensures alone { Follow A.commands (IfAlone A.commands) }
    ensures usage { Follow A.commands (IfUsage A.commands) }
    ensures arguments { Follow A.commands (IfArguments A.commands) }
    ensures meant { Follow A.commands (AreMeant A.commands) }
    ensures as_known { Follow A.commands (AreAsKnown A.commands) }
    ensures read_fault { Follow A.commands (λ arguments. OnlyReadFault) }
    ensures write_fault { Follow A.commands (λ arguments. OnlyWriteFault) }
    ensures too_long { Follow A.commands (OnlyTooLong A.commands) }
    ensures input_too_long { Follow A.commands (IfInputTooLong A.commands) }
    ensures input_fails { Follow A.commands (IfInputFails A.commands) }
    ensures memory { Follow A.commands (IfMemory A.commands) }
    ensures write_fault_by { Follow A.commands (IfWriteFault A.commands) }
    ensures decided { Follow A.commands (IsDecided A.commands) }
    ensures exact { Follow A.commands (IsExact A.commands) }
    ensures complete { Follow A.commands (IsComplete A.commands) }
{}

/// States what follows about the statuses that files cause, for commands that request their files
/// turn by turn.
pub fn files_in_turns<A: Act>()
    requires lawful { AreLawful A.commands }
    requires turns { AreInTurns A.commands }
    ensures open_fault { Follow A.commands (OnlyOpenFault A.commands) }
    ensures missing { Follow A.commands (IfMissing A.commands) }
    ensures too_long { Follow A.commands (IfFileTooLong A.commands) }
    ensures exit { Follow A.commands (IfFiles A.commands) }
{}

/// Proves that the specification of a run follows from its account, and that the other properties
/// of a run follow from the specification. The commands must be lawful, and must request their
/// files turn by turn.
pub fn lawful_commands_keep_run_spec<A: Act>()
    requires lawful { AreLawful A.commands }
    requires turns { AreInTurns A.commands }
    ensures { KeepRunSpec A.commands }
{
    promised::<A>();
    run_spec_of_commands::<A>();
    files_in_turns::<A>();
}
