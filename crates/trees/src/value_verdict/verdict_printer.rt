//! The text of a verdict.

ghost use Rattle.std.specs.Prelude.{◌≡◌, ◌++◌, OnOk};
ghost use Rattle.trees.specs.value_verdict.TreeVerdictText as texts;
ghost use Rattle.trees.specs.value_verdict.TreeVerdictText.{verdict_text};

use crate::search_trees::{TreeKind, TreeVerdict};
use base_data::model::Memory;
use base_data::text::{write, write_number, write_path};

/// Appends a verdict to a text: `sound` and the number of nodes, or `fault`, the kind of the fault
/// and the path of the fault.
pub fn write_verdict(text: &mut Vec<u8>, verdict: &TreeVerdict) -> Result<(), Memory>
    ensures { OnOk result (text.new.items ≡ text.old.items ++ verdict_text verdict.now) }
{
    match verdict {
        TreeVerdict::Sound(nodes) => {
            write(text, b"sound ")?;
            write_number(text, *nodes)
        }
        TreeVerdict::Faulty(kind, path) => {
            write(text, b"fault ")?;
            write(text, kind_word(*kind))?;
            write(text, b" at ")?;
            write_path(text, path)
        }
    }
}

/// Returns the word for a kind of fault.
fn kind_word(kind: TreeKind) -> &'static [u8]
    ensures { result.now ≡ texts.kind_word kind }
{
    match kind {
        TreeKind::Height => b"height",
        TreeKind::Balance => b"balance",
        TreeKind::Order => b"order",
    }
}
