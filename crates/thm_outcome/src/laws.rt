//! The laws. A lemma function does nothing at run time: its contract is a law.

ghost use Rattle.std.specs.Prelude.{ℕ, ◌⊎◌};
ghost use Rattle.cli_spec.specs.Outcome.{Request, task, dumps, compares};
ghost use Rattle.cmd_gen.specs.spec.GenSpec.{gen_spec};
ghost use Rattle.cmd_scan.specs.spec.Searching.{searching};
ghost use Rattle.opt_skip_only.specs.only_spec.OnlyCommand.{only_command};
ghost use Rattle.opt_skip_only.specs.only_spec.OnlyRequests.{picked_by};
ghost use Rattle.opt_skip_only.specs.skip_spec.SkipRequests.{passed_by};
ghost use Rattle.opt_skip_only.specs.skip_spec.Skipping.{skipping};
ghost use Rattle.run_spec.specs.command_sum.CommandSum.{command_sum, AreDisjoint};
ghost use Rattle.run_spec.specs.runs.Lawful.{AreLawful};
ghost use Rattle.run_spec.specs.runs.LawfulLanguage.{IsLawful};
ghost use Rattle.run_spec.specs.value_commands.Tasks.{commands};
ghost use Rattle.thm_outcome.specs.Total.{AreTotal, HasAnswer, HaveAnOutcome};
ghost use Rattle.thm_outcome.specs.Total.{HaveExactlyOneOutcome};
ghost use Rattle.thm_outcome.specs.TotalLanguage.{HasLines, IsTotal, IsValueRequest};
ghost use Rattle.thm_outcome.specs.TotalLanguage.{ReadsNoType};
ghost use Rattle.thm_outcome.specs.TotalMade.{ReadsEachType, IsMadeInRange, IsMadeRequest};
ghost use Rattle.thm_outcome.specs.TotalScan.{IsSearch};

use cmd_gen::spec::laws::{OnMade, gen_spec_is_lawful};
use cmd_scan::spec::laws::{OnStretches, Searches, searching_is_lawful};
use opt_skip_only::only_spec::laws::{
    OneByArguments, OnlyCommand, PicksOne, only_command_is_lawful,
};
use opt_skip_only::skip_spec::laws::{ByArguments, PassesOver, Skipping, skipping_is_lawful};
use run_spec::runs::laws::{Act, lawful_commands};
use run_spec::value_commands::laws::{OnValues, Prints, commands_are_lawful};
use std::marker::PhantomData;

/// A set of requests: the requests at which commands are total.
pub trait RequestSet {
    ghost of: { Request → Type 0 };
}

/// The requests of the commands on values.
pub struct ValueRequests;

impl RequestSet for ValueRequests {
    ghost of = { IsValueRequest };
}

/// The requests of `dump` and `same`.
pub struct UntypedRequests;

impl RequestSet for UntypedRequests {
    ghost of = { ReadsNoType };
}

/// The requests of `gen` with at most the maximum COUNT.
pub struct MadeRequests;

impl RequestSet for MadeRequests {
    ghost of = { IsMadeInRange };
}

/// The requests of `scan`.
pub struct SearchRequests<S>(PhantomData<S>);

impl<S: Searches> RequestSet for SearchRequests<S> {
    ghost of = { IsSearch S.limit_by };
}

/// States that an outcome exists for lawful commands at the requests at which the commands are
/// total.
pub fn total_commands_have_an_outcome<A: Act, R: RequestSet>()
    requires lawful { AreLawful A.commands }
    requires total { AreTotal A.commands R.of }
    ensures { HaveAnOutcome A.commands R.of }
{}

/// States that exactly one outcome exists for lawful commands at the requests at which the commands
/// are total.
pub fn total_commands_have_one_outcome<A: Act, R: RequestSet>()
    requires lawful { AreLawful A.commands }
    requires total { AreTotal A.commands R.of }
    ensures { HaveExactlyOneOutcome A.commands R.of }
{
    lawful_commands::<A>();
    total_commands_have_an_outcome::<A, R>();
}

// ---- sums and options

/// States that the sum of two disjoint sets of total commands is total at the requests of each set.
pub fn command_sums_are_total<A: Act, B: Act, Q: RequestSet, R: RequestSet>()
    requires first { AreTotal A.commands Q.of }
    requires second { AreTotal B.commands R.of }
    requires disjoint { AreDisjoint A.commands B.commands }
    ensures { let c = command_sum A.commands B.commands in
        AreTotal c (λ request. Q.of request ⊎ R.of request) }
{}

/// States that total commands are total with `--skip`.
pub fn skipping_is_total<P: PassesOver, C: Act, R: RequestSet>()
    requires { AreTotal C.commands R.of }
    ensures { AreTotal (skipping P.passed_by C.commands) R.of }
{}

/// States that total commands are total with `--only`.
pub fn only_command_is_total<P: PicksOne, C: Act, R: RequestSet>()
    requires { AreTotal C.commands R.of }
    ensures { AreTotal (only_command P.picked_by C.commands) R.of }
{}

// ---- the commands on values

/// States that `dump` and `same` are total over each language, and that each input has an answer.
pub fn untyped_commands_are_total<L: Prints>()
    ensures total { AreTotal (commands L.language) ReadsNoType }
    ensures dump { (limit : ℕ) → HasAnswer (commands L.language) (task dumps limit) }
    ensures same { (limit : ℕ) → HasAnswer (commands L.language) (task compares limit) }
{}

/// States that the commands on values are total if the language is total.
pub fn value_commands_are_total<L: Prints>()
    requires { IsTotal L.language }
    ensures { AreTotal (commands L.language) IsValueRequest }
{}

/// States that `dump` and `same` with `--skip` and `--only` have exactly one outcome if the
/// language is lawful.
pub fn untyped_commands_have_one_outcome<L: Prints>()
    requires { IsLawful L.language }
    ensures { let c = skipping passed_by (only_command picked_by (commands L.language)) in
        HaveExactlyOneOutcome c ReadsNoType }
{
    commands_are_lawful::<L>();
    untyped_commands_are_total::<L>();
    only_command_is_lawful::<OneByArguments, OnValues<L>>();
    only_command_is_total::<OneByArguments, OnValues<L>, UntypedRequests>();
    skipping_is_lawful::<ByArguments, OnlyCommand<OneByArguments, OnValues<L>>>();
    skipping_is_total::<ByArguments, OnlyCommand<OneByArguments, OnValues<L>>, UntypedRequests>();
    total_commands_have_one_outcome::<
        Skipping<ByArguments, OnlyCommand<OneByArguments, OnValues<L>>>,
        UntypedRequests,
    >();
}

/// States that the commands on values with `--skip` and `--only` have exactly one outcome if the
/// language is lawful and total.
pub fn value_commands_have_one_outcome<L: Prints>()
    requires lawful { IsLawful L.language }
    requires total { IsTotal L.language }
    ensures { let c = skipping passed_by (only_command picked_by (commands L.language)) in
        HaveExactlyOneOutcome c IsValueRequest }
{
    commands_are_lawful::<L>();
    value_commands_are_total::<L>();
    only_command_is_lawful::<OneByArguments, OnValues<L>>();
    only_command_is_total::<OneByArguments, OnValues<L>, ValueRequests>();
    skipping_is_lawful::<ByArguments, OnlyCommand<OneByArguments, OnValues<L>>>();
    skipping_is_total::<ByArguments, OnlyCommand<OneByArguments, OnValues<L>>, ValueRequests>();
    total_commands_have_one_outcome::<
        Skipping<ByArguments, OnlyCommand<OneByArguments, OnValues<L>>>,
        ValueRequests,
    >();
}

// ---- the command `scan`

/// States that `scan` is total, and that each input has an answer.
pub fn searching_is_total<S: Searches>()
    ensures total { AreTotal (searching S.limit_by) (IsSearch S.limit_by) }
    ensures answers { (limit : ℕ) → HasAnswer (searching S.limit_by) limit }
{}

/// States that `scan` has exactly one outcome.
pub fn searching_has_one_outcome<S: Searches>()
    ensures { HaveExactlyOneOutcome (searching S.limit_by) (IsSearch S.limit_by) }
{
    searching_is_lawful::<S>();
    searching_is_total::<S>();
    total_commands_have_one_outcome::<OnStretches<S>, SearchRequests<S>>();
}

// ---- the command `gen`

/// States that `gen` is total over a language that reads each type and has a line for each value.
pub fn gen_spec_is_total<L: Prints>()
    requires types { ReadsEachType L.language }
    requires lines { HasLines L.language }
    ensures { AreTotal (gen_spec L.language) IsMadeInRange }
{}

/// States that `gen` has exactly one outcome over a lawful language that reads each type and has a
/// line for each value.
pub fn gen_spec_has_one_outcome<L: Prints>()
    requires lawful { IsLawful L.language }
    requires types { ReadsEachType L.language }
    requires lines { HasLines L.language }
    ensures { HaveExactlyOneOutcome (gen_spec L.language) IsMadeRequest }
{
    gen_spec_is_lawful::<L>();
    gen_spec_is_total::<L>();
    total_commands_have_one_outcome::<OnMade<L>, MadeRequests>();
}
