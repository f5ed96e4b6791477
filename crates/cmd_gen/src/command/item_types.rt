//! Parses the argument TYPE over the declarations of the items.

ghost use Rattle.std.specs.Prelude.{◌≡◌, IfOk};
ghost use Rattle.cmd_gen.specs.generator.Generated.{item_declarations};
ghost use Rattle.cmd_gen.specs.command.ItemTypes.{GivesItemType};

use crate::generator::declarations;
use base_data::model::Memory;
use base_data::text::write;
use cli_spec::exit::Exit;
use run_types::{Gathered, InputEnd, Requested, read_gathered};
use std::alloc::Global;

/// Returns the text of the declarations of the items.
fn item_text(alloc: Global) -> Result<Vec<u8>, Memory>
    ensures { IfOk result (λ text. text.items ≡ item_declarations) }
{
    let mut text = Vec::new(alloc);
    write(&mut text, declarations())?;
    Ok(text)
}

/// Parses TYPE over the declarations of the items. If TYPE is refused or memory runs out, the error
/// is the exit reason.
pub fn find_item_type(alloc: Global, type_text: &str) -> Result<Requested, Exit>
    ensures { GivesItemType type_text.now result }
{
    let Ok(bytes) = item_text(alloc) else {
        return Err(Exit::Memory);
    };
    let gathered = Gathered {
        bytes,
        until: InputEnd::End,
    };
    read_gathered(alloc, &gathered, type_text, false, false)
}
