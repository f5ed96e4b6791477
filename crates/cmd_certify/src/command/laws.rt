//! Laws about certificate entries at declared types, as contracts of lemma functions.

ghost use Rattle.std.specs.Prelude.{List};
ghost use Rattle.types_spec.specs.declared.types.decl.Decl.{Decl};
ghost use Rattle.text_path.specs.declared.edits.ScriptLine.{ScriptLine};
ghost use Rattle.run_types.specs.Language.{TypeOver, declared_types};
ghost use Rattle.cmd_certify.specs.spec.Certification.{AreCertifiedOnce};
ghost use Rattle.cmd_certify.specs.command.CertifiedOutput.{declared_certificates};

use crate::spec::laws::Certifies;
use cert_verify::table_independence::laws::tables_reach_agree;

/// The parameters of `check --cert` for values of declared types.
pub struct DeclaredCertificates;

impl Certifies for DeclaredCertificates {
    ghost declarations = { List Decl };

    ghost types = { TypeOver };

    ghost lines = { ScriptLine };

    ghost language = { declared_types };

    ghost SectionOf = { declared_certificates };
}

/// Proves that a value has only one certificate entry at a type.
pub fn declared_certificates_are_one()
    ensures { AreCertifiedOnce declared_types declared_certificates }
{
    tables_reach_agree();
}
