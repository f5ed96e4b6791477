//! The laws. A lemma function does nothing at run time: its contract is a law.

ghost use Rattle.cmd_build.specs.command.InputLines.{declared_texts};
ghost use Rattle.run_spec.specs.value_commands.Tasks.{commands};
ghost use Rattle.run_types.specs.Language.{declared_types};
ghost use Rattle.session.specs.All.{all_commands};
ghost use Rattle.thm_roundtrip.specs.Shown.{ShownTextsAreBuilt};
ghost use Rattle.cmd_build.specs.spec.InputTexts.{building};

use cmd_build::command::laws::{DeclaredTexts, declared_texts_are_read_once};
use cmd_build::spec::laws::{building_answers_once, building_is_lawful};
use run_spec::value_commands::laws::commands_keep_run_spec;
use run_types::laws::{DeclaredTypes, declared_types_are_lawful};
use session::all_commands_have_parts;
use text_roundtrip::rebuild::declared_texts_are_read_back;
use types_wellformed::declarations::well_formed_laws::{files_are_well_formed, types_are_sound};

/// Suppose a call of `show` and a call of `build` satisfy the specifications of their commands.
/// Then `build` writes the values that `show` printed.
pub fn shown_texts_are_built()
    ensures { ShownTextsAreBuilt (commands declared_types)
        (building declared_types declared_texts) }
{
    files_are_well_formed();
    types_are_sound();
    declared_texts_are_read_back();
    declared_types_are_lawful();
    declared_texts_are_read_once();
    commands_keep_run_spec::<DeclaredTypes>();
    building_answers_once::<DeclaredTexts>();
    building_is_lawful::<DeclaredTexts>();
}

/// Suppose two calls of the program satisfy the specification of all commands. If the second call
/// builds the output of the first call, then the second call writes the values that the first call
/// printed.
pub fn all_commands_build_shown_texts()
    ensures { ShownTextsAreBuilt all_commands all_commands }
{
    all_commands_have_parts();
    shown_texts_are_built();
}
