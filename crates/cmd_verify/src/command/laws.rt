//! Laws about certificates at declared types, as contracts of lemma functions.

ghost use Rattle.std.specs.Prelude.{List};
ghost use Rattle.types_spec.specs.declared.types.decl.Decl.{Decl};
ghost use Rattle.text_path.specs.declared.edits.ScriptLine.{ScriptLine};
ghost use Rattle.cert_format.specs.declared.section.Section.{Section};
ghost use Rattle.run_types.specs.Language.{TypeOver, declared_types};
ghost use Rattle.cmd_verify.specs.spec.Verification.{AreReadOnce};
ghost use Rattle.cmd_verify.specs.command.VerifiedSections.{reads_sections, declared_sections};

use crate::spec::laws::Verifies;
use cert_format::texts_are_one;
use cert_verify::table_independence::laws::tables_verify_agree;

/// The parameters of `verify` for certificates of values of declared types.
pub struct DeclaredSections;

impl Verifies for DeclaredSections {
    ghost declarations = { List Decl };

    ghost types = { TypeOver };

    ghost lines = { ScriptLine };

    ghost sections = { Section };

    ghost language = { declared_types };

    ghost Reads = { reads_sections };

    ghost ShownBy = { declared_sections };
}

/// Proves that a certificate has only one reading, and that a certificate entry has only one result
/// for a value at a type.
pub fn declared_sections_are_read_once()
    ensures { AreReadOnce declared_types reads_sections declared_sections }
{
    texts_are_one();
    tables_verify_agree();
}
