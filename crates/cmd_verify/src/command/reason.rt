//! The texts of the reasons why a certificate entry is rejected.

ghost use Rattle.std.specs.Prelude.{◌≡◌, ◌++◌, codes, decimal, IfOk, OnOk, string_bytes};
ghost use Rattle.cmd_verify.specs.command.VerifiedSections.{why_text};

use base_data::model::Memory;
use base_data::text::write;
use cert_verify::certificate::Why;
use std::alloc::{AllocError, Global};

// Returns the text of a name, followed by a number in parentheses.
fn with_number(alloc: Global, name: &str, number: u64) -> Result<String, AllocError>
    ensures { IfOk result
        (λ text. string_bytes text ≡ name.now ++ codes "(" ++ decimal number ++ codes ")") }
{
    format!(in alloc; "{name}({number})")
}

// Returns the text of a name, followed by two numbers in parentheses.
fn with_numbers(alloc: Global, name: &str, one: u64, other: u64) -> Result<String, AllocError>
    ensures { IfOk result
        (λ text. string_bytes text
        ≡ name.now ++ codes "(" ++ decimal one ++ codes ", " ++ decimal other ++ codes ")") }
{
    format!(in alloc; "{name}({one}, {other})")
}

// Appends the text of a name, followed by a number in parentheses.
fn write_number(text: &mut Vec<u8>, alloc: Global, name: &str, number: u64) -> Result<(), Memory>
    ensures { OnOk result
        (text.new.items
        ≡ text.old.items ++ (name.now ++ codes "(" ++ decimal number ++ codes ")")) }
{
    let named = with_number(alloc, name, number)?;
    write(text, named.as_bytes())
}

// Appends the reason that a required field of a pair is missing.
fn write_need(text: &mut Vec<u8>, alloc: Global, pair: u64, field: u64) -> Result<(), Memory>
    ensures { OnOk result
        (text.new.items
        ≡ text.old.items
        ++ (codes "Need(" ++ decimal pair ++ codes ", " ++ decimal field ++ codes ")")) }
{
    let named = with_numbers(alloc, "Need", pair, field)?;
    write(text, named.as_bytes())
}

/// Appends the text of a reason why an entry is rejected.
pub fn write_why(text: &mut Vec<u8>, alloc: Global, why: Why) -> Result<(), Memory>
    ensures { OnOk result (text.new.items ≡ text.old.items ++ why_text why) }
{
    match why {
        Why::Range(pair) => write_number(text, alloc, "Range", pair),
        Why::Unfit(pair) => write_number(text, alloc, "Unfit", pair),
        Why::Need(pair, field) => write_need(text, alloc, pair, field),
        Why::TwoTypes(pair) => write_number(text, alloc, "TwoTypes", pair),
        Why::Root => write(text, b"Root"),
        Why::NotFault => write(text, b"NotFault"),
    }
}
