//! The laws. A lemma function does nothing at run time: its contract is a law.

ghost use Rattle.cmd_verify.specs.command.VerifyProgress.{on_certificates};
ghost use Rattle.cmd_certify.specs.command.CertifiedOutput.{on_certified};
ghost use Rattle.thm_certificates.specs.certified.CertifyThenVerify.{WrittenCertificatesAreAccepted};
ghost use Rattle.thm_certificates.specs.certified.ShownLines.{CertifiedTextsAreShown};

use cert_format::written_sections_are_certificates;
use cert_verify::certificate::{answers_are_one, reached_pairs_are_accepted};
use cert_verify::table_independence::laws::{tables_verify_agree, types_are_one_list};
use cmd_certify::command::laws::{DeclaredCertificates, declared_certificates_are_one};
use cmd_certify::spec::laws::certifying_keeps_run_spec;
use cmd_verify::command::laws::{DeclaredSections, declared_sections_are_read_once};
use cmd_verify::spec::laws::verifying_is_lawful;
use run_types::laws::declared_types_are_lawful;
use types_theory::equality::table_types::tables_have_the_faults;
use types_theory::table::tables_decide;
use types_wellformed::declarations::well_formed_laws::{files_are_well_formed, types_are_sound};

/// If an entry certifies a value, then verifying the entry gives the line that `check` prints for
/// the value.
pub fn certified_sections_are_shown()
    ensures { CertifiedTextsAreShown }
{
    files_are_well_formed();
    types_are_sound();
    reached_pairs_are_accepted();
    answers_are_one();
    tables_verify_agree();
    tables_have_the_faults();
    tables_decide();
}

/// For the same input, FILE and TYPE, `verify` accepts the output of `check --cert`. `verify`
/// prints the lines of `check`, and ends with the status of `check --cert`.
pub fn written_certificates_are_accepted()
    ensures { WrittenCertificatesAreAccepted on_certified on_certificates }
{
    files_are_well_formed();
    types_are_sound();
    types_are_one_list();
    written_sections_are_certificates();
    declared_types_are_lawful();
    declared_certificates_are_one();
    certifying_keeps_run_spec::<DeclaredCertificates>();
    declared_sections_are_read_once();
    verifying_is_lawful::<DeclaredSections>();
    certified_sections_are_shown();
}
