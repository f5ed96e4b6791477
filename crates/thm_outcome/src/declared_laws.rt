//! The laws for the language of declared types, and for the program's set of all commands.

ghost use Rattle.std.specs.Prelude.{ℕ, Bool, List};
ghost use Rattle.cli_spec.specs.CommandLine.{searched_by};
ghost use Rattle.cli_spec.specs.Outcome.{AskedType};
ghost use Rattle.cmd_gen.specs.spec.GenSpec.{gen_spec};
ghost use Rattle.cmd_scan.specs.spec.Searching.{searching};
ghost use Rattle.opt_skip_only.specs.only_spec.OnlyCommand.{only_command};
ghost use Rattle.opt_skip_only.specs.only_spec.OnlyRequests.{picked_by};
ghost use Rattle.opt_skip_only.specs.skip_spec.SkipRequests.{passed_by};
ghost use Rattle.opt_skip_only.specs.skip_spec.Skipping.{skipping};
ghost use Rattle.run_spec.specs.value_commands.Tasks.{commands};
ghost use Rattle.run_types.specs.Language.{declared_types};
ghost use Rattle.session.specs.All.{all_commands};
ghost use Rattle.thm_outcome.specs.Total.{NotNone, HaveExactlyOneOutcome};
ghost use Rattle.thm_outcome.specs.TotalLanguage.{HasLines, HasBytes, IsTotal, IsValueRequest};
ghost use Rattle.thm_outcome.specs.TotalLanguage.{ReadsNoType};
ghost use Rattle.thm_outcome.specs.TotalMade.{IsMadeRequest, ReadsEachType};
ghost use Rattle.thm_outcome.specs.TotalScan.{IsSearch};
ghost use Rattle.types_spec.specs.declared.types.decl.Decl.{Decl};

use crate::laws::{
    gen_spec_has_one_outcome, searching_has_one_outcome, untyped_commands_have_one_outcome,
    value_commands_have_one_outcome,
};
use cmd_scan::spec::laws::Searches;
use run_types::laws::{DeclaredTypes, declared_types_are_lawful};
use session::all_commands_have_one_outcome;
use text_path::{one_answer, one_script_answer};
use types_lex::one_outcome;
use types_parse::grammar::laws::one_reading;

/// The command `scan` of the program.
pub struct SearchByArguments;

impl Searches for SearchByArguments {
    ghost limit_by = { searched_by };
}

/// States that each text is read as a path or refused.
pub fn paths_are_read_or_refused()
    ensures { (text : List ℕ) → NotNone (declared_types.ReadsPath text) }
{
    one_answer();
}

/// States that each text is read as a script or refused, with and without decimals.
pub fn scripts_are_read_or_refused()
    ensures { (lined decimal : Bool) (text : List ℕ)
        → NotNone (declared_types.ReadsScript lined decimal text) }
{
    one_script_answer();
}

/// States that each text is read as declarations or refused.
pub fn declarations_are_read_or_refused()
    ensures { (lined : Bool) (text : List ℕ)
        → NotNone (declared_types.ReadsDeclarations lined text) }
{
    one_outcome();
    one_reading();
}

/// States that each text is read as a type over declarations or refused.
pub fn types_are_read_or_refused()
    ensures { (decls : List Decl) (asked : AskedType)
        → NotNone (declared_types.ReadsType decls asked) }
{
    one_outcome();
    one_reading();
}

/// States that the language of declared types is total if each value has a line, and if each value
/// has the bytes of an edit or a reason.
pub fn declared_types_are_total_by_values()
    requires lines { HasLines declared_types }
    requires bytes { HasBytes declared_types }
    ensures { IsTotal declared_types }
{
    paths_are_read_or_refused();
    scripts_are_read_or_refused();
    declarations_are_read_or_refused();
    types_are_read_or_refused();
}

/// States that `dump` and `same` with `--skip` and `--only` have exactly one outcome.
pub fn dump_and_same_have_one_outcome()
    ensures { let c = skipping passed_by (only_command picked_by (commands declared_types)) in
        HaveExactlyOneOutcome c ReadsNoType }
{
    declared_types_are_lawful();
    untyped_commands_have_one_outcome::<DeclaredTypes>();
}

/// States that the commands on values with `--skip` and `--only` have exactly one outcome if each
/// value has a line, and if each value has the bytes of an edit or a reason.
pub fn declared_commands_have_one_outcome()
    requires lines { HasLines declared_types }
    requires bytes { HasBytes declared_types }
    ensures { let c = skipping passed_by (only_command picked_by (commands declared_types)) in
        HaveExactlyOneOutcome c IsValueRequest }
{
    declared_types_are_lawful();
    declared_types_are_total_by_values();
    value_commands_have_one_outcome::<DeclaredTypes>();
}

/// States that in the set of all commands, `dump` and `same` have exactly one outcome.
pub fn all_commands_have_one_outcome_of_dump_and_same()
    ensures { HaveExactlyOneOutcome all_commands ReadsNoType }
{
    all_commands_have_one_outcome();
    dump_and_same_have_one_outcome();
}

/// States that in the set of all commands, each command on values has exactly one outcome if each
/// value has a line, and if each value has the bytes of an edit or a reason.
pub fn all_commands_have_one_outcome_of_values()
    requires lines { HasLines declared_types }
    requires bytes { HasBytes declared_types }
    ensures { HaveExactlyOneOutcome all_commands IsValueRequest }
{
    all_commands_have_one_outcome();
    declared_commands_have_one_outcome();
}

/// States that `scan` has exactly one outcome.
pub fn scan_has_one_outcome()
    ensures { HaveExactlyOneOutcome (searching searched_by) (IsSearch searched_by) }
{
    searching_has_one_outcome::<SearchByArguments>();
}

/// States that in the set of all commands, `scan` has exactly one outcome.
pub fn all_commands_have_one_outcome_of_scan()
    ensures { HaveExactlyOneOutcome all_commands (IsSearch searched_by) }
{
    all_commands_have_one_outcome();
    scan_has_one_outcome();
}

/// States that the language of declared types reads each type.
pub fn declared_types_are_each_read()
    ensures { ReadsEachType declared_types }
{
    declarations_are_read_or_refused();
    types_are_read_or_refused();
}

/// States that `gen` has exactly one outcome if each value has a line.
pub fn gen_has_one_outcome()
    requires { HasLines declared_types }
    ensures { HaveExactlyOneOutcome (gen_spec declared_types) IsMadeRequest }
{
    declared_types_are_lawful();
    declared_types_are_each_read();
    gen_spec_has_one_outcome::<DeclaredTypes>();
}

/// States that in the set of all commands, `gen` has exactly one outcome if each value has a line.
pub fn all_commands_have_one_outcome_of_gen()
    requires { HasLines declared_types }
    ensures { HaveExactlyOneOutcome all_commands IsMadeRequest }
{
    all_commands_have_one_outcome();
    gen_has_one_outcome();
}
