//! Lemma functions, which do nothing at run time. The contract of each function is a law.

ghost use Rattle.cli_spec.specs.Outcome.{Language};
ghost use Rattle.run_spec.specs.runs.CommandLaws.{Follow};
ghost use Rattle.run_spec.specs.runs.Lawful.{AreLawful, AreInTurns};
ghost use Rattle.run_spec.specs.runs.LawfulLanguage.{IsLawful};
ghost use Rattle.run_spec.specs.runs.RunLaws.{AnswerOnce, KeepRunSpec};
ghost use Rattle.run_spec.specs.exit_causes.Causes.{AreExact, Causes};
ghost use Rattle.cmd_certify.specs.spec.Laws.{IsIdleElsewhere};
ghost use Rattle.cmd_certify.specs.spec.ExitStatuses.{certifying_tables, IsNeverRejected};
ghost use Rattle.cmd_certify.specs.spec.Certification.{Certification, OutputsSections, certifying};
ghost use Rattle.cmd_certify.specs.spec.Certification.{AreCertifiedOnce};

use run_spec::exit_causes::laws::{Meant, causes_of_tables};
use run_spec::runs::laws::{Act, lawful_commands, lawful_commands_keep_run_spec};
use std::marker::PhantomData;

/// The parameters of the command. The parameters are how texts are parsed as declarations, types
/// and script lines, and which certificate entry a value has at a type.
pub trait Certifies {
    ghost declarations: { Type 0 };

    ghost types: { Type 0 };

    ghost lines: { Type 0 };

    ghost language: { Language declarations types lines };

    ghost SectionOf: { OutputsSections types };
}

/// The command `check --cert` for the parameters `V`, with its exit status specification.
pub struct OnCertified<V>(PhantomData<V>);

impl<V: Certifies> Act for OnCertified<V> {
    ghost acts = { Certification V.types };

    ghost commands = { certifying V.language V.SectionOf };
}

impl<V: Certifies> Meant for OnCertified<V> {
    ghost acts = { Certification V.types };

    ghost commands = { certifying V.language V.SectionOf };

    ghost tables = { certifying_tables V.language V.SectionOf };
}

/// Proves that the command is lawful if the language is lawful and each value has at most one
/// certificate entry.
pub fn certifying_is_lawful<V: Certifies>()
    requires language { IsLawful V.language }
    requires once { AreCertifiedOnce V.language V.SectionOf }
    ensures { AreLawful (certifying V.language V.SectionOf) }
{}

/// Proves that the command fetches FILE in the first turn and fetches no other file.
pub fn certifying_takes_turns<V: Certifies>()
    requires language { IsLawful V.language }
    ensures { AreInTurns (certifying V.language V.SectionOf) }
{}

/// Proves that arguments, files and input have at most one outcome. The input contains at most one
/// exit reason. If more bytes follow, the exit reason remains. Bytes that contain the exit reason
/// need no more bytes.
pub fn certifying_answers_once<V: Certifies>()
    requires language { IsLawful V.language }
    requires once { AreCertifiedOnce V.language V.SectionOf }
    ensures { AnswerOnce (certifying V.language V.SectionOf) }
{
    certifying_is_lawful::<V>();
    lawful_commands::<OnCertified<V>>();
}

/// Proves that the account of a run implies the specification of the run, and that the
/// specification implies the other laws.
pub fn certifying_keeps_run_spec<V: Certifies>()
    requires language { IsLawful V.language }
    requires once { AreCertifiedOnce V.language V.SectionOf }
    ensures { KeepRunSpec (certifying V.language V.SectionOf) }
{
    certifying_is_lawful::<V>();
    certifying_takes_turns::<V>();
    lawful_commands_keep_run_spec::<OnCertified<V>>();
}

/// Proves that the command does nothing for a request of another command.
pub fn certifying_is_idle_elsewhere<V: Certifies>()
    ensures { IsIdleElsewhere V.language V.SectionOf }
{}

/// Proves that the status tables are exact. The values and their certificate entries determine what
/// ends a run and how an input ends. The arguments and the files determine what ends a run before
/// the input.
pub fn sections_have_exit_statuses<V: Certifies>()
    ensures { AreExact (certifying V.language V.SectionOf)
        (certifying_tables V.language V.SectionOf) }
{}

/// Proves the exit status specification: each status has its cause, and each cause has its status.
/// Statuses 5, 11 and 12 never occur.
pub fn causes_of_sections<V: Certifies>()
    requires language { IsLawful V.language }
    requires once { AreCertifiedOnce V.language V.SectionOf }
    ensures causes { let c = certifying V.language V.SectionOf in
        Follow c (Causes c (certifying_tables V.language V.SectionOf)) }
    ensures others { Follow (certifying V.language V.SectionOf) (λ arguments. IsNeverRejected) }
{
    certifying_is_lawful::<V>();
    certifying_takes_turns::<V>();
    sections_have_exit_statuses::<V>();
    causes_of_tables::<OnCertified<V>>();
}
