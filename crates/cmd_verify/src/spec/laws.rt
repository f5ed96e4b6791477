//! Lemma functions, which do nothing at run time. The contract of each function is a law.

ghost use Rattle.marshal_spec.specs.format.Tree.{Tree};
ghost use Rattle.cli_spec.specs.Outcome.{Language};
ghost use Rattle.run_spec.specs.runs.CommandLaws.{Follow};
ghost use Rattle.run_spec.specs.runs.Lawful.{AreLawful, AreInTurns};
ghost use Rattle.run_spec.specs.runs.LawfulLanguage.{IsLawful};
ghost use Rattle.run_spec.specs.runs.RunLaws.{AnswerOnce, KeepRunSpec};
ghost use Rattle.run_spec.specs.exit_causes.Causes.{AreExact, Causes};
ghost use Rattle.cmd_verify.specs.spec.Laws.{IsIdleElsewhere};
ghost use Rattle.cmd_verify.specs.spec.ExitStatuses.{certificate_tables, IsNeverEdited};
ghost use Rattle.cmd_verify.specs.spec.Verification.{Shown, Verification, ReadsSections, verifying};
ghost use Rattle.cmd_verify.specs.spec.Verification.{AreReadOnce};

use run_spec::exit_causes::laws::{Meant, causes_of_tables};
use run_spec::runs::laws::{Act, lawful_commands, lawful_commands_keep_run_spec};
use std::marker::PhantomData;

/// The parameters of the command. The parameters are how texts are parsed as declarations, types,
/// script lines and certificate entries, and what an entry proves about a value at a type.
pub trait Verifies {
    ghost declarations: { Type 0 };

    ghost types: { Type 0 };

    ghost lines: { Type 0 };

    ghost sections: { Type 0 };

    ghost language: { Language declarations types lines };

    ghost Reads: { ReadsSections sections };

    ghost ShownBy: { types → sections → Tree → Shown → Type 0 };
}

/// The command `verify` for the parameters `V`, with its exit status specification.
pub struct OnCertificates<V>(PhantomData<V>);

impl<V: Verifies> Act for OnCertificates<V> {
    ghost acts = { Verification V.types V.sections };

    ghost commands = { verifying V.language V.Reads V.ShownBy };
}

impl<V: Verifies> Meant for OnCertificates<V> {
    ghost acts = { Verification V.types V.sections };

    ghost commands = { verifying V.language V.Reads V.ShownBy };

    ghost tables = { certificate_tables V.language V.Reads V.ShownBy };
}

/// Proves that the command is lawful if the language is lawful and certificates are read once.
/// Certificates are read once if a certificate parses in one way, and an entry proves one thing
/// about a value.
pub fn verifying_is_lawful<V: Verifies>()
    requires language { IsLawful V.language }
    requires once { AreReadOnce V.language V.Reads V.ShownBy }
    ensures { AreLawful (verifying V.language V.Reads V.ShownBy) }
{}

/// Proves that the command fetches FILE in the first turn and CERT in the second turn.
pub fn verifying_takes_turns<V: Verifies>()
    requires language { IsLawful V.language }
    requires once { AreReadOnce V.language V.Reads V.ShownBy }
    ensures { AreInTurns (verifying V.language V.Reads V.ShownBy) }
{}

/// Proves that arguments, files and input have at most one outcome. The input contains at most one
/// exit reason. If more bytes follow, the exit reason remains. Bytes that contain the exit reason
/// need no more bytes.
pub fn verifying_answers_once<V: Verifies>()
    requires language { IsLawful V.language }
    requires once { AreReadOnce V.language V.Reads V.ShownBy }
    ensures { AnswerOnce (verifying V.language V.Reads V.ShownBy) }
{
    verifying_is_lawful::<V>();
    lawful_commands::<OnCertificates<V>>();
}

/// Proves that the account of a run implies the specification of the run, and that the
/// specification implies the other laws.
pub fn verifying_keeps_run_spec<V: Verifies>()
    requires language { IsLawful V.language }
    requires once { AreReadOnce V.language V.Reads V.ShownBy }
    ensures { KeepRunSpec (verifying V.language V.Reads V.ShownBy) }
{
    verifying_is_lawful::<V>();
    verifying_takes_turns::<V>();
    lawful_commands_keep_run_spec::<OnCertificates<V>>();
}

/// Proves that the command does nothing for a request of another command.
pub fn verifying_is_idle_elsewhere<V: Verifies>()
    ensures { IsIdleElsewhere V.language V.Reads V.ShownBy }
{}

/// Proves that the status tables are exact. The values and their certificate entries determine what
/// ends a run and how an input ends. The arguments and the files determine what ends a run before
/// the input.
pub fn certificates_have_exit_statuses<V: Verifies>()
    ensures { AreExact (verifying V.language V.Reads V.ShownBy)
        (certificate_tables V.language V.Reads V.ShownBy) }
{}

/// Proves the exit status specification: each status has its cause, and each cause has its status.
/// Statuses 5 and 11 never occur.
pub fn causes_of_certificates<V: Verifies>()
    requires language { IsLawful V.language }
    requires once { AreReadOnce V.language V.Reads V.ShownBy }
    ensures causes { let c = verifying V.language V.Reads V.ShownBy in
        Follow c (Causes c (certificate_tables V.language V.Reads V.ShownBy)) }
    ensures others { Follow (verifying V.language V.Reads V.ShownBy) (λ arguments. IsNeverEdited) }
{
    verifying_is_lawful::<V>();
    verifying_takes_turns::<V>();
    certificates_have_exit_statuses::<V>();
    causes_of_tables::<OnCertificates<V>>();
}
