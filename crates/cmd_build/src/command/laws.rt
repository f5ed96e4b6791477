//! The law about lines at declared types, as the contract of a lemma function without a body.

ghost use Rattle.std.specs.Prelude.{List};
ghost use Rattle.types_spec.specs.declared.types.decl.Decl.{Decl};
ghost use Rattle.text_path.specs.declared.edits.ScriptLine.{ScriptLine};
ghost use Rattle.run_types.specs.Language.{TypeOver, declared_types};
ghost use Rattle.cmd_build.specs.spec.InputTexts.{IsReadOnce};
ghost use Rattle.cmd_build.specs.command.InputLines.{declared_texts};

use crate::spec::laws::Builds;
use types_theory::table::type_or_fault;
use types_wellformed::declarations::well_formed_laws::{files_are_well_formed, types_are_sound};

/// Texts of values of declared types.
pub struct DeclaredTexts;

impl Builds for DeclaredTexts {
    ghost declarations = { List Decl };

    ghost types = { TypeOver };

    ghost lines = { ScriptLine };

    ghost language = { declared_types };

    ghost TextOf = { declared_texts };
}

/// Proves that a line has only one meaning at each type that some text denotes.
pub fn declared_texts_are_read_once()
    ensures { IsReadOnce declared_types declared_texts }
{
    files_are_well_formed();
    types_are_sound();
    type_or_fault();
}
