//! The law. A lemma function does nothing at run time: its contract is the law.

ghost use Rattle.thm_certificates.specs.certified.CertifyThenVerify.{WrittenCertificatesAreAccepted};
ghost use Rattle.session.specs.All.{all_commands};

use crate::certified::laws::written_certificates_are_accepted;
use session::all_commands_have_parts;

/// Suppose one call of the program certifies values, and another call verifies the output of the
/// first call for these values. Then the certificate is accepted. The output of the second call is
/// the lines of `check`, and the status is that of the first call.
pub fn all_commands_confirm_certificates()
    ensures { WrittenCertificatesAreAccepted all_commands all_commands }
{
    all_commands_have_parts();
    written_certificates_are_accepted();
}
