//! The text for an item that is too large for a 32-bit reader.

ghost use Rattle.std.specs.Prelude.{◌≡◌, ◌++◌, codes, decimal, IfOk, string_bytes};
ghost use Rattle.std.specs.Fmt.{signed_decimal};
ghost use Rattle.cli_errors.specs.Exits.{text_of_compat};

use itoa::Buffer;
use marshal_write::write::Compat;
use std::alloc::{AllocError, Global};

// Returns the text for an item of this kind: the kind, and the digits of the item's number.
fn digits_compat(alloc: Global, kind: &str, digits: &str) -> Result<String, AllocError>
    ensures { IfOk result
        (λ text. string_bytes text
        ≡ codes "Compat(" ++ kind.now ++ codes ", " ++ digits.now ++ codes ")") }
{
    format!(in alloc; "Compat({kind}, {digits})")
}

// Returns the text for an item of this kind with a signed number.
fn signed_compat(alloc: Global, kind: &str, number: i64) -> Result<String, AllocError>
    ensures { IfOk result
        (λ text. string_bytes text
        ≡ codes "Compat(" ++ kind.now ++ codes ", " ++ signed_decimal number ++ codes ")") }
{
    let mut buffer = Buffer::new();
    digits_compat(alloc, kind, buffer.format(number))
}

// Returns the text for an item of this kind with an unsigned number, for example a size.
fn sized_compat(alloc: Global, kind: &str, number: u64) -> Result<String, AllocError>
    ensures { IfOk result
        (λ text. string_bytes text
        ≡ codes "Compat(" ++ kind.now ++ codes ", " ++ decimal number ++ codes ")") }
{
    format!(in alloc; "Compat({kind}, {number})")
}

/// Returns the text for an item that is too large for a 32-bit reader.
pub fn compat_text(alloc: Global, compat: Compat) -> Result<String, AllocError>
    ensures { IfOk result (λ text. string_bytes text ≡ text_of_compat compat) }
{
    match compat {
        Compat::Int(number) => signed_compat(alloc, "int", number),
        Compat::Block(size) => sized_compat(alloc, "block", size),
        Compat::Bytes(size) => sized_compat(alloc, "string", size),
        Compat::Native(number) => signed_compat(alloc, "nativeint", number),
        Compat::Doubles(size) => sized_compat(alloc, "floats", size),
        Compat::Header(number) => sized_compat(alloc, "header", number),
    }
}
