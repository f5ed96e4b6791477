//! All commands of the program as one command set: the commands on values at declared types,
//! `build`, `verify`, `check --cert`, `scan` and `gen`. The laws state the properties of the whole
//! set, and what follows from the specification of a run.

ghost use Rattle.run_spec.specs.exit_causes.Causes.{Causes as CausesBy};
ghost use Rattle.run_spec.specs.exit_statuses.Tables.{values_tables};
ghost use Rattle.opt_skip_only.specs.skip_spec.SkipTables.{skipping_tables};
ghost use Rattle.opt_skip_only.specs.only_spec.OnlyTables.{only_command_tables};
ghost use Rattle.run_spec.specs.runs.RunCauses.{EnvironmentCauses};
ghost use Rattle.run_spec.specs.runs.CommandLaws.{HaveOneOutcome, ArePromised, Follow};
ghost use Rattle.run_spec.specs.runs.Lawful.{AreLawful, AreInTurns};
ghost use Rattle.run_spec.specs.runs.RunSpec.{Headline};
ghost use Rattle.run_types.specs.Language.{declared_types};
ghost use Rattle.cli_spec.specs.CommandLine.{searched_by};
ghost use Rattle.session.specs.All.{on_values, on_values_after, on_texts, on_made};
ghost use Rattle.session.specs.All.{on_certificates_after, on_certified_after, on_positions};
ghost use Rattle.session.specs.All.{all_commands, IsOfValues, IsOfTexts, IsOfMade};
ghost use Rattle.session.specs.All.{IsOfCertificates, IsOfSections, IsOfPositions, IsPart};
ghost use Rattle.cmd_build.specs.command.InputLines.{declared_texts};
ghost use Rattle.cmd_build.specs.spec.ExitStatuses.{texts_tables};
ghost use Rattle.cmd_gen.specs.spec.ExitStatuses.{GenCauses as CausesOfMade};
ghost use Rattle.cmd_verify.specs.spec.ExitStatuses.{certificate_tables};
ghost use Rattle.cmd_verify.specs.command.VerifiedSections.{reads_sections, declared_sections};
ghost use Rattle.cmd_certify.specs.spec.ExitStatuses.{certifying_tables};
ghost use Rattle.cmd_certify.specs.command.CertifiedOutput.{declared_certificates};
ghost use Rattle.cmd_scan.specs.spec.ExitStatuses.{searching_tables};

use cmd_build::command::laws::{DeclaredTexts, declared_texts_are_read_once};
use cmd_build::spec::laws::{
    OnTexts, building_is_lawful, building_stands_disjoint, building_takes_turns, causes_of_texts,
};
use cmd_certify::command::laws::{DeclaredCertificates, declared_certificates_are_one};
use cmd_certify::spec::laws::{
    OnCertified, certifying_is_idle_elsewhere, certifying_is_lawful, certifying_takes_turns,
    sections_have_exit_statuses,
};
use cmd_disjoint::laws::{
    certificates_stand_disjoint, certificates_stand_disjoint_from_made,
    certificates_stand_disjoint_from_texts, made_stands_disjoint, made_stands_disjoint_from_texts,
    searches_stand_disjoint, searches_stand_disjoint_from_certificates,
    searches_stand_disjoint_from_made, searches_stand_disjoint_from_sections,
    searches_stand_disjoint_from_texts, sections_stand_disjoint,
    sections_stand_disjoint_from_certificates, sections_stand_disjoint_from_made,
    sections_stand_disjoint_from_texts,
};
use cmd_gen::spec::laws::{
    OnMade, causes_of_gen_spec, gen_spec_is_idle_elsewhere, gen_spec_is_lawful,
    gen_spec_takes_turns,
};
use cmd_scan::spec::laws::{
    OnStretches, Searches, causes_of_searching, searching_is_idle_elsewhere, searching_is_lawful,
    searching_takes_turns,
};
use cmd_verify::command::laws::{DeclaredSections, declared_sections_are_read_once};
use cmd_verify::spec::laws::{
    OnCertificates, certificates_have_exit_statuses, verifying_is_idle_elsewhere,
    verifying_is_lawful, verifying_takes_turns,
};
use opt_skip_only::only_spec::laws::{
    OneByArguments, OnlyCommand, only_command_has_exit_statuses, only_command_is_lawful,
    only_command_stands_disjoint, only_command_takes_turns,
};
use opt_skip_only::skip_spec::laws::{
    ByArguments, Skipping, causes_after_skipping, others_stand_disjoint, skipping_is_lawful,
    skipping_stands_disjoint, skipping_takes_turns,
};
use run_spec::command_sum::laws::{
    CommandSum, command_sums_are_disjoint, command_sums_are_idle, command_sums_are_lawful,
    command_sums_specify_as_the_first, command_sums_specify_as_the_second, command_sums_take_turns,
};
use run_spec::exit_statuses::laws::{MeantValues, values_have_exit_statuses};
use run_spec::runs::laws::{files_in_turns, lawful_commands, promised, run_spec_of_commands};
use run_spec::value_commands::laws::{
    OnValues, commands_answer_once, commands_are_lawful, commands_take_turns,
};
use run_types::laws::{DeclaredTypes, declared_types_are_lawful};

/// The command that searches the input for values.
pub struct Scans;

impl Searches for Scans {
    ghost limit_by = { searched_by };
}

type EachValue = OnValues<DeclaredTypes>;

type ValuesAtOnce = OnlyCommand<OneByArguments, EachValue>;

type ValueCommands = Skipping<ByArguments, ValuesAtOnce>;

type TextCommands = OnTexts<DeclaredTexts>;

type MadeCommand = OnMade<DeclaredTypes>;

type CertificatesAtOnce = OnCertificates<DeclaredSections>;

type Certificates = Skipping<ByArguments, CertificatesAtOnce>;

type SectionsAtOnce = OnCertified<DeclaredCertificates>;

type Sections = Skipping<ByArguments, SectionsAtOnce>;

type ScanCommand = OnStretches<Scans>;

type ValuesOrTexts = CommandSum<ValueCommands, TextCommands>;

type Others = CommandSum<ValuesOrTexts, Certificates>;

type ItemCommands = CommandSum<Others, Sections>;

type Input = CommandSum<ItemCommands, ScanCommand>;

type All = CommandSum<Input, MadeCommand>;

/// Proves that the set of all commands is lawful, and that each command fetches its files in turns.
pub fn all_commands_are_lawful()
    ensures lawful { AreLawful all_commands }
    ensures turns { AreInTurns all_commands }
{
    declared_types_are_lawful();
    declared_texts_are_read_once();
    declared_sections_are_read_once();
    declared_certificates_are_one();
    commands_are_lawful::<DeclaredTypes>();
    commands_take_turns::<DeclaredTypes>();
    only_command_is_lawful::<OneByArguments, EachValue>();
    only_command_takes_turns::<OneByArguments, EachValue>();
    skipping_is_lawful::<ByArguments, ValuesAtOnce>();
    skipping_takes_turns::<ByArguments, ValuesAtOnce>();
    building_is_lawful::<DeclaredTexts>();
    building_takes_turns::<DeclaredTexts>();
    building_stands_disjoint::<DeclaredTexts>();
    only_command_stands_disjoint::<OneByArguments, EachValue, TextCommands>();
    skipping_stands_disjoint::<ByArguments, ValuesAtOnce, TextCommands>();
    verifying_is_lawful::<DeclaredSections>();
    verifying_takes_turns::<DeclaredSections>();
    skipping_is_lawful::<ByArguments, CertificatesAtOnce>();
    skipping_takes_turns::<ByArguments, CertificatesAtOnce>();
    certificates_stand_disjoint::<DeclaredSections>();
    only_command_stands_disjoint::<OneByArguments, EachValue, CertificatesAtOnce>();
    skipping_stands_disjoint::<ByArguments, ValuesAtOnce, CertificatesAtOnce>();
    others_stand_disjoint::<ByArguments, CertificatesAtOnce, ValueCommands>();
    certificates_stand_disjoint_from_texts::<DeclaredTexts, DeclaredSections>();
    others_stand_disjoint::<ByArguments, CertificatesAtOnce, TextCommands>();
    certificates_stand_disjoint_from_made::<DeclaredSections, DeclaredTypes>();
    skipping_stands_disjoint::<ByArguments, CertificatesAtOnce, MadeCommand>();
    certifying_is_lawful::<DeclaredCertificates>();
    certifying_takes_turns::<DeclaredCertificates>();
    skipping_is_lawful::<ByArguments, SectionsAtOnce>();
    skipping_takes_turns::<ByArguments, SectionsAtOnce>();
    sections_stand_disjoint::<DeclaredCertificates>();
    only_command_stands_disjoint::<OneByArguments, EachValue, SectionsAtOnce>();
    skipping_stands_disjoint::<ByArguments, ValuesAtOnce, SectionsAtOnce>();
    others_stand_disjoint::<ByArguments, SectionsAtOnce, ValueCommands>();
    sections_stand_disjoint_from_texts::<DeclaredTexts, DeclaredCertificates>();
    others_stand_disjoint::<ByArguments, SectionsAtOnce, TextCommands>();
    sections_stand_disjoint_from_certificates::<DeclaredSections, DeclaredCertificates>();
    skipping_stands_disjoint::<ByArguments, CertificatesAtOnce, SectionsAtOnce>();
    others_stand_disjoint::<ByArguments, SectionsAtOnce, Certificates>();
    sections_stand_disjoint_from_made::<DeclaredCertificates, DeclaredTypes>();
    skipping_stands_disjoint::<ByArguments, SectionsAtOnce, MadeCommand>();
    searching_is_lawful::<Scans>();
    searching_takes_turns::<Scans>();
    searches_stand_disjoint::<DeclaredTypes>();
    only_command_stands_disjoint::<OneByArguments, EachValue, ScanCommand>();
    skipping_stands_disjoint::<ByArguments, ValuesAtOnce, ScanCommand>();
    searches_stand_disjoint_from_texts::<DeclaredTexts>();
    searches_stand_disjoint_from_certificates::<DeclaredSections>();
    skipping_stands_disjoint::<ByArguments, CertificatesAtOnce, ScanCommand>();
    searches_stand_disjoint_from_sections::<DeclaredCertificates>();
    skipping_stands_disjoint::<ByArguments, SectionsAtOnce, ScanCommand>();
    searches_stand_disjoint_from_made::<DeclaredTypes>();
    gen_spec_is_lawful::<DeclaredTypes>();
    gen_spec_takes_turns::<DeclaredTypes>();
    made_stands_disjoint::<DeclaredTypes>();
    only_command_stands_disjoint::<OneByArguments, EachValue, MadeCommand>();
    skipping_stands_disjoint::<ByArguments, ValuesAtOnce, MadeCommand>();
    made_stands_disjoint_from_texts::<DeclaredTexts, DeclaredTypes>();
    command_sums_are_lawful::<ValueCommands, TextCommands>();
    command_sums_take_turns::<ValueCommands, TextCommands>();
    command_sums_are_disjoint::<ValueCommands, TextCommands, Certificates>();
    command_sums_are_lawful::<ValuesOrTexts, Certificates>();
    command_sums_take_turns::<ValuesOrTexts, Certificates>();
    command_sums_are_disjoint::<ValueCommands, TextCommands, Sections>();
    command_sums_are_disjoint::<ValuesOrTexts, Certificates, Sections>();
    command_sums_are_lawful::<Others, Sections>();
    command_sums_take_turns::<Others, Sections>();
    command_sums_are_disjoint::<ValueCommands, TextCommands, ScanCommand>();
    command_sums_are_disjoint::<ValuesOrTexts, Certificates, ScanCommand>();
    command_sums_are_disjoint::<Others, Sections, ScanCommand>();
    command_sums_are_lawful::<ItemCommands, ScanCommand>();
    command_sums_take_turns::<ItemCommands, ScanCommand>();
    command_sums_are_disjoint::<ValueCommands, TextCommands, MadeCommand>();
    command_sums_are_disjoint::<ValuesOrTexts, Certificates, MadeCommand>();
    command_sums_are_disjoint::<Others, Sections, MadeCommand>();
    command_sums_are_disjoint::<ItemCommands, ScanCommand, MadeCommand>();
    command_sums_are_lawful::<Input, MadeCommand>();
    command_sums_take_turns::<Input, MadeCommand>();
}

/// Proves that the specification of a run follows from its `Account`. Also proves which exit
/// statuses the environment can cause.
pub fn all_commands_keep_run_spec()
    ensures account { ArePromised all_commands }
    ensures headline { Follow all_commands (Headline all_commands) }
    ensures environment { Follow all_commands (EnvironmentCauses all_commands) }
{
    all_commands_are_lawful();
    promised::<All>();
    run_spec_of_commands::<All>();
    files_in_turns::<All>();
}

/// Proves that arguments, files and an input determine the outcome.
pub fn all_commands_have_one_outcome()
    ensures { HaveOneOutcome all_commands }
{
    all_commands_are_lawful();
    lawful_commands::<All>();
}

/// Proves that arguments, files and an input determine the outcome of a command on values, without
/// `--skip` and `--only`.
pub fn values_have_one_outcome()
    ensures { HaveOneOutcome on_values }
{
    declared_types_are_lawful();
    commands_answer_once::<DeclaredTypes>();
}

/// Proves that a fault-free run by a command on values, without `--skip` and `--only`, has the
/// outcome of the known files and the known input.
pub fn values_have_headline()
    ensures { Follow on_values (Headline on_values) }
{
    declared_types_are_lawful();
    commands_are_lawful::<DeclaredTypes>();
    run_spec_of_commands::<EachValue>();
}

/// Proves that each command set is a part of the whole set, for arguments that request only
/// commands of the part.
pub fn all_commands_have_parts()
    ensures values { IsPart on_values_after IsOfValues }
    ensures texts { IsPart on_texts IsOfTexts }
    ensures certificates { IsPart on_certificates_after IsOfCertificates }
    ensures sections { IsPart on_certified_after IsOfSections }
    ensures positions { IsPart on_positions IsOfPositions }
    ensures made { IsPart on_made IsOfMade }
{
    building_stands_disjoint::<DeclaredTexts>();
    verifying_is_idle_elsewhere::<DeclaredSections>();
    certifying_is_idle_elsewhere::<DeclaredCertificates>();
    searching_is_idle_elsewhere::<Scans>();
    gen_spec_is_idle_elsewhere::<DeclaredTypes>();
    command_sums_are_idle::<ValueCommands, TextCommands>();
    command_sums_are_idle::<ValuesOrTexts, Certificates>();
    command_sums_are_idle::<Others, Sections>();
    command_sums_are_idle::<ItemCommands, ScanCommand>();
    command_sums_specify_as_the_first::<ValueCommands, TextCommands>();
    command_sums_specify_as_the_second::<ValueCommands, TextCommands>();
    command_sums_specify_as_the_first::<ValuesOrTexts, Certificates>();
    command_sums_specify_as_the_second::<ValuesOrTexts, Certificates>();
    command_sums_specify_as_the_first::<Others, Sections>();
    command_sums_specify_as_the_second::<Others, Sections>();
    command_sums_specify_as_the_first::<ItemCommands, ScanCommand>();
    command_sums_specify_as_the_second::<ItemCommands, ScanCommand>();
    command_sums_specify_as_the_first::<Input, MadeCommand>();
    command_sums_specify_as_the_second::<Input, MadeCommand>();
}

/// Proves the exit status specification of the commands on values: each status has its cause, and
/// each cause has its status.
pub fn statuses_of_values_have_causes()
    ensures { Follow on_values_after
        (CausesBy on_values_after
        (skipping_tables (only_command_tables on_values (values_tables declared_types)))) }
{
    declared_types_are_lawful();
    commands_are_lawful::<DeclaredTypes>();
    commands_take_turns::<DeclaredTypes>();
    values_have_exit_statuses::<DeclaredTypes>();
    only_command_is_lawful::<OneByArguments, EachValue>();
    only_command_takes_turns::<OneByArguments, EachValue>();
    only_command_has_exit_statuses::<OneByArguments, MeantValues<DeclaredTypes>>();
    causes_after_skipping::<ByArguments, OnlyCommand<OneByArguments, MeantValues<DeclaredTypes>>>();
}

/// Proves the exit status specification of `build`.
pub fn statuses_of_texts_have_causes()
    ensures { Follow on_texts (CausesBy on_texts (texts_tables declared_types declared_texts)) }
{
    declared_types_are_lawful();
    declared_texts_are_read_once();
    causes_of_texts::<DeclaredTexts>();
}

/// Proves the exit status specification of `verify`.
pub fn statuses_of_certificates_have_causes()
    ensures { Follow on_certificates_after (CausesBy on_certificates_after
        (skipping_tables (certificate_tables declared_types reads_sections declared_sections))) }
{
    declared_types_are_lawful();
    declared_sections_are_read_once();
    verifying_is_lawful::<DeclaredSections>();
    verifying_takes_turns::<DeclaredSections>();
    certificates_have_exit_statuses::<DeclaredSections>();
    causes_after_skipping::<ByArguments, CertificatesAtOnce>();
}

/// Proves the exit status specification of `check --cert`.
pub fn statuses_of_sections_have_causes()
    ensures { Follow on_certified_after (CausesBy on_certified_after
        (skipping_tables (certifying_tables declared_types declared_certificates))) }
{
    declared_types_are_lawful();
    declared_certificates_are_one();
    certifying_is_lawful::<DeclaredCertificates>();
    certifying_takes_turns::<DeclaredCertificates>();
    sections_have_exit_statuses::<DeclaredCertificates>();
    causes_after_skipping::<ByArguments, SectionsAtOnce>();
}

/// Proves the exit status specification of `scan`.
pub fn statuses_of_positions_have_causes()
    ensures { Follow on_positions (CausesBy on_positions searching_tables) }
{
    causes_of_searching::<Scans>();
}

/// Proves the exit status specification of `gen`.
pub fn statuses_of_made_have_causes()
    ensures { Follow on_made (CausesOfMade declared_types) }
{
    declared_types_are_lawful();
    causes_of_gen_spec::<DeclaredTypes>();
}
