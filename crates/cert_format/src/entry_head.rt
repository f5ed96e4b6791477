//! The first line of an entry.

ghost use Rattle.std.specs.Prelude.{◌≡◌, ◌++◌, ◌∷◌, [], OnOk};
ghost use Rattle.cert_format.specs.Format.{verdict_text, head_line};

use crate::section::Section;
use base_data::model::Memory;
use base_data::text::{write, write_number, write_path};

/// Appends the verdict, which is the text after the entry's number.
fn write_verdict(text: &mut Vec<u8>, section: &Section) -> Result<(), Memory>
    ensures { OnOk result (text.new.items ≡ text.old.items ++ verdict_text section.now) }
{
    match section {
        Section::Pairs(_) => write(text, b"yes"),
        Section::Mismatch(path) => {
            write(text, b"misfit ")?;
            write_path(text, path)
        }
        Section::Conflict(first, second) => {
            write(text, b"clash ")?;
            write_path(text, first)?;
            write(text, b" ")?;
            write_path(text, second)
        }
    }
}

/// Appends the first line of an entry.
pub fn write_head(text: &mut Vec<u8>, number: u64, section: &Section) -> Result<(), Memory>
    ensures { OnOk result
        (text.new.items ≡ text.old.items ++ (head_line number section.now ++ 10 ∷ [])) }
{
    write(text, b"value ")?;
    write_number(text, number)?;
    write(text, b" ")?;
    write_verdict(text, section)?;
    write(text, b"\n")
}
