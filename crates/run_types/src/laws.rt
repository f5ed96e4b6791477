//! Declarations and types in OCaml's syntax, as an instance of the general language of types.

ghost use Rattle.std.specs.Prelude.{List};
ghost use Rattle.types_spec.specs.declared.types.decl.Decl.{Decl};
ghost use Rattle.text_path.specs.declared.edits.ScriptLine.{ScriptLine};
ghost use Rattle.run_spec.specs.runs.LawfulLanguage.{IsLawful};
ghost use Rattle.run_types.specs.Language.{TypeOver, declared_types};

use edit_values::edits_have_one_answer;
use run_spec::value_commands::laws::Prints;
use text_path::{one_answer as one_path, one_script_answer};
use trees::search_trees::tree_verdicts_are_one;
use types_theory::table::type_or_fault;
use types_wellformed::declarations::laws::one_answer;
use types_wellformed::declarations::well_formed_laws::{files_are_well_formed, types_are_sound};

/// The language of OCaml type declarations, type expressions and edit scripts.
pub struct DeclaredTypes;

impl Prints for DeclaredTypes {
    ghost declarations = { List Decl };

    ghost types = { TypeOver };

    ghost lines = { ScriptLine };

    ghost language = { declared_types };
}

/// Proves that the language is lawful: each text parses in one way, and each value has one output
/// at a type. `declared_types_are_lawful` is a lemma function, which does nothing at run time.
pub fn declared_types_are_lawful()
    ensures { IsLawful declared_types }
{
    one_answer();
    one_path();
    one_script_answer();
    edits_have_one_answer();
    files_are_well_formed();
    types_are_sound();
    type_or_fault();
    tree_verdicts_are_one();
}
