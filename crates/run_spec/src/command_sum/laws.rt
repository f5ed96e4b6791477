//! The theorems about sums, as contracts of lemma functions without a body.

ghost use Rattle.std.specs.Prelude.{◌⊎◌};
ghost use Rattle.run_spec.specs.runs.Lawful.{AreLawful, AreInTurns};
ghost use Rattle.run_spec.specs.command_sum.CommandSum.{command_sum, AreDisjoint, AreIdleTogether};
ghost use Rattle.run_spec.specs.command_sum.CommandSum.{HaveAccountsOfFirst};
ghost use Rattle.run_spec.specs.command_sum.CommandSum.{SpecifyAsFirst, HaveAccountsOfSecond};
ghost use Rattle.run_spec.specs.command_sum.CommandSum.{SpecifyAsSecond};

use crate::runs::laws::Act;
use std::marker::PhantomData;

/// The sum of two command sets, as a type that stands for the sum in contracts.
pub struct CommandSum<A, B>(PhantomData<A>, PhantomData<B>);

impl<A: Act, B: Act> Act for CommandSum<A, B> {
    ghost acts = { A.acts ⊎ B.acts };

    ghost commands = { command_sum A.commands B.commands };
}

/// States that the sum of two sets of lawful commands is lawful if the sets are disjoint.
pub fn command_sums_are_lawful<A: Act, B: Act>()
    requires first { AreLawful A.commands }
    requires second { AreLawful B.commands }
    requires disjoint { AreDisjoint A.commands B.commands }
    ensures { AreLawful (command_sum A.commands B.commands) }
{}

/// States that the sum requests its files turn by turn if both sets request their files turn by
/// turn and are disjoint.
pub fn command_sums_take_turns<A: Act, B: Act>()
    requires first { AreInTurns A.commands }
    requires second { AreInTurns B.commands }
    requires disjoint { AreDisjoint A.commands B.commands }
    ensures { AreInTurns (command_sum A.commands B.commands) }
{}

/// States that the sum is disjoint from a third set if both sets of the sum are disjoint from the
/// third set.
pub fn command_sums_are_disjoint<A: Act, B: Act, C: Act>()
    requires first { AreDisjoint A.commands C.commands }
    requires second { AreDisjoint B.commands C.commands }
    ensures { AreDisjoint (command_sum A.commands B.commands) C.commands }
{}

/// States that the sum ignores a request if both sets ignore the request.
pub fn command_sums_are_idle<A: Act, B: Act>()
    ensures { AreIdleTogether A.commands B.commands }
{}

/// States that a run behaves as in the first set if the arguments request nothing of the second. An
/// account by the first set is an account by the sum. The specification of a run by the sum implies
/// the specification by the first set.
pub fn command_sums_specify_as_the_first<A: Act, B: Act>()
    ensures account { HaveAccountsOfFirst A.commands B.commands }
    ensures run_spec { SpecifyAsFirst A.commands B.commands }
{}

/// States that a run behaves as in the second set if the arguments request nothing of the first.
pub fn command_sums_specify_as_the_second<A: Act, B: Act>()
    ensures account { HaveAccountsOfSecond A.commands B.commands }
    ensures run_spec { SpecifyAsSecond A.commands B.commands }
{}
