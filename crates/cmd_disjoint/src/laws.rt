//! Lemma functions. A lemma function does nothing at run time: its contract is a law.

ghost use Rattle.cmd_certify.specs.spec.Certification.{certifying};
ghost use Rattle.run_spec.specs.command_sum.CommandSum.{AreDisjoint};
ghost use Rattle.run_spec.specs.value_commands.Tasks.{commands};
ghost use Rattle.cmd_gen.specs.spec.GenSpec.{gen_spec};
ghost use Rattle.cli_spec.specs.CommandLine.{searched_by};
ghost use Rattle.cmd_scan.specs.spec.Searching.{searching};
ghost use Rattle.cmd_build.specs.spec.InputTexts.{building};
ghost use Rattle.cmd_verify.specs.spec.Verification.{verifying};

use cmd_build::spec::laws::Builds;
use cmd_certify::spec::laws::Certifies;
use cmd_verify::spec::laws::Verifies;
use run_spec::value_commands::laws::Prints;

/// Proves that the commands on values and `gen` are disjoint: no request is for both.
pub fn made_stands_disjoint<L: Prints>()
    ensures { AreDisjoint (commands L.language) (gen_spec L.language) }
{}

/// Proves that `build` and `gen` are disjoint.
pub fn made_stands_disjoint_from_texts<B: Builds, L: Prints>()
    ensures { AreDisjoint (building B.language B.TextOf) (gen_spec L.language) }
{}

/// Proves that the commands on values and `verify` are disjoint.
pub fn certificates_stand_disjoint<V: Verifies>()
    ensures { AreDisjoint (commands V.language) (verifying V.language V.Reads V.ShownBy) }
{}

/// Proves that `build` and `verify` are disjoint.
pub fn certificates_stand_disjoint_from_texts<B: Builds, V: Verifies>()
    ensures { AreDisjoint (building B.language B.TextOf)
        (verifying V.language V.Reads V.ShownBy) }
{}

/// Proves that `verify` and `gen` are disjoint.
pub fn certificates_stand_disjoint_from_made<V: Verifies, L: Prints>()
    ensures { AreDisjoint (verifying V.language V.Reads V.ShownBy) (gen_spec L.language) }
{}

/// Proves that the commands on values and `check --cert` are disjoint.
pub fn sections_stand_disjoint<C: Certifies>()
    ensures { AreDisjoint (commands C.language) (certifying C.language C.SectionOf) }
{}

/// Proves that `build` and `check --cert` are disjoint.
pub fn sections_stand_disjoint_from_texts<B: Builds, C: Certifies>()
    ensures { AreDisjoint (building B.language B.TextOf) (certifying C.language C.SectionOf) }
{}

/// Proves that `verify` and `check --cert` are disjoint.
pub fn sections_stand_disjoint_from_certificates<V: Verifies, C: Certifies>()
    ensures { AreDisjoint (verifying V.language V.Reads V.ShownBy)
        (certifying C.language C.SectionOf) }
{}

/// Proves that `check --cert` and `gen` are disjoint.
pub fn sections_stand_disjoint_from_made<C: Certifies, L: Prints>()
    ensures { AreDisjoint (certifying C.language C.SectionOf) (gen_spec L.language) }
{}

/// Proves that the commands on values and `scan` are disjoint.
pub fn searches_stand_disjoint<L: Prints>()
    ensures { AreDisjoint (commands L.language) (searching searched_by) }
{}

/// Proves that `build` and `scan` are disjoint.
pub fn searches_stand_disjoint_from_texts<B: Builds>()
    ensures { AreDisjoint (building B.language B.TextOf) (searching searched_by) }
{}

/// Proves that `verify` and `scan` are disjoint.
pub fn searches_stand_disjoint_from_certificates<V: Verifies>()
    ensures { AreDisjoint (verifying V.language V.Reads V.ShownBy) (searching searched_by) }
{}

/// Proves that `check --cert` and `scan` are disjoint.
pub fn searches_stand_disjoint_from_sections<C: Certifies>()
    ensures { AreDisjoint (certifying C.language C.SectionOf) (searching searched_by) }
{}

/// Proves that `scan` and `gen` are disjoint.
pub fn searches_stand_disjoint_from_made<L: Prints>()
    ensures { AreDisjoint (searching searched_by) (gen_spec L.language) }
{}
