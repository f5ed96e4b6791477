//! The texts of refusals.

ghost use Rattle.std.specs.Prelude.{◌≡◌, ◌++◌, codes, decimal, IfOk, string_bytes};
ghost use Rattle.std.specs.Fmt.{signed_decimal};
ghost use Rattle.cli_spec.specs.RefusalText.{refusal_text as text_of};
ghost use Rattle.cli_spec.specs.RefusalText.{truncated_text as text_of_split};
ghost use Rattle.cli_spec.specs.RefusalText.{stated_text as stated, sum_text as sum, hex_byte};
ghost use Rattle.cli_spec.specs.RefusalText.{hex_word};

use base_data::model::refusal::{ReadRefusal, StatedNumber, WordSum};
use itoa::Buffer;
use std::alloc::{AllocError, Global};

fn stated_text(which: StatedNumber) -> &'static str
    ensures { result.now ≡ stated which }
{
    match which {
        StatedNumber::Words => "words",
        StatedNumber::Length => "length",
    }
}

fn sum_text(which: WordSum) -> &'static str
    ensures { result.now ≡ sum which }
{
    match which {
        WordSum::W32 => "w32",
        WordSum::W64 => "w64",
    }
}

// Returns a name and an offset in bytes, as `NAME at OFFSET`.
fn position_text(alloc: Global, name: &str, position: u64) -> Result<String, AllocError>
    ensures { IfOk result
        (λ text. string_bytes text ≡ name.now ++ codes " at " ++ decimal position) }
{
    format!(in alloc; "{name} at {position}")
}

// Returns a name, a number and an offset in bytes, as `NAME(NUMBER) at OFFSET`.
fn number_text(alloc: Global, name: &str, number: u64, position: u64) -> Result<String, AllocError>
    ensures { IfOk result
        (λ text. string_bytes text
        ≡ name.now ++ codes "(" ++ decimal number ++ codes ") at " ++ decimal position) }
{
    format!(in alloc; "{name}({number}) at {position}")
}

// Returns a name, the digits of a number and an offset in bytes, as `NAME(DIGITS) at OFFSET`.
fn digits_text(alloc: Global, name: &str, digits: &str, position: u64) -> Result<String, AllocError>
    ensures { IfOk result
        (λ text. string_bytes text
        ≡ name.now ++ codes "(" ++ digits.now ++ codes ") at " ++ decimal position) }
{
    format!(in alloc; "{name}({digits}) at {position}")
}

// Returns a name, a code in hexadecimal and an offset in bytes, as `NAME(CODE) at OFFSET`.
fn code_text(alloc: Global, name: &str, code: u8, position: u64) -> Result<String, AllocError>
    ensures { IfOk result
        (λ text. string_bytes text
        ≡ name.now ++ codes "(" ++ hex_byte code ++ codes ") at " ++ decimal position) }
{
    let digits = hex::encode(alloc, [code])?;
    digits_text(alloc, name, digits.as_str(), position)
}

// Returns the text with a name and two numbers.
fn numbers_text(
    alloc: Global,
    name: &str,
    first: u64,
    second: u64,
    position: u64,
) -> Result<String, AllocError>
    ensures { IfOk result
        (λ text. string_bytes text
        ≡ name.now ++ codes "(" ++ decimal first ++ codes ", " ++ decimal second
        ++ codes ") at " ++ decimal position) }
{
    format!(in alloc; "{name}({first}, {second}) at {position}")
}

fn magic_text(alloc: Global, magic: u32) -> Result<String, AllocError>
    ensures { IfOk result
        (λ text. string_bytes text ≡ codes "BadMagic(" ++ hex_word magic ++ codes ")") }
{
    let digits = hex::encode(alloc, magic.to_be_bytes())?;
    format!(in alloc; "BadMagic({digits})")
}

fn too_large_text(alloc: Global, which: &str, stated: u64, limit: u64) -> Result<String, AllocError>
    ensures { IfOk result
        (λ text. string_bytes text
        ≡ codes "TooLarge(" ++ which.now ++ codes ", " ++ decimal stated ++ codes ", "
        ++ decimal limit ++ codes ")") }
{
    format!(in alloc; "TooLarge({which}, {stated}, {limit})")
}

fn mismatch_text(
    alloc: Global,
    which: &str,
    stated: u64,
    found: u64,
    position: u64,
) -> Result<String, AllocError>
    ensures { IfOk result
        (λ text. string_bytes text
        ≡ codes "SizeMismatch(" ++ which.now ++ codes ", " ++ decimal stated ++ codes ", "
        ++ decimal found ++ codes ") at " ++ decimal position) }
{
    format!(in alloc; "SizeMismatch({which}, {stated}, {found}) at {position}")
}

fn range_text(alloc: Global, value: i64, position: u64) -> Result<String, AllocError>
    ensures { IfOk result
        (λ text. string_bytes text
        ≡ codes "IntRange(" ++ signed_decimal value ++ codes ") at " ++ decimal position) }
{
    let mut buffer = Buffer::new();
    digits_text(alloc, "IntRange", buffer.format(value), position)
}

fn overlong_text(alloc: Global, need: u128, left: u64, position: u64) -> Result<String, AllocError>
    ensures { IfOk result
        (λ text. string_bytes text
        ≡ codes "Overlong(" ++ decimal need ++ codes ", " ++ decimal left ++ codes ") at "
        ++ decimal position) }
{
    format!(in alloc; "Overlong({need}, {left}) at {position}")
}

/// Returns the text of a refusal.
#[tactic(auto, unfolding(cli_spec::specs::RefusalText::refusal_text))]
pub fn refusal_text(alloc: Global, refusal: ReadRefusal) -> Result<String, AllocError>
    ensures { IfOk result (λ text. string_bytes text ≡ text_of refusal) }
{
    match refusal {
        ReadRefusal::BadMagic(magic) => magic_text(alloc, magic),
        ReadRefusal::Compressed => String::from_str(alloc, "Compressed"),
        ReadRefusal::TooLarge(which, stated, limit) => {
            too_large_text(alloc, stated_text(which), stated, limit)
        }
        ReadRefusal::BadCode(position, code) => code_text(alloc, "BadCode", code, position),
        ReadRefusal::PointerCode(position, code) => code_text(alloc, "PointerCode", code, position),
        ReadRefusal::OtherCustom(position, code) => code_text(alloc, "OtherCustom", code, position),
        ReadRefusal::BadTag(position, tag) => number_text(
            alloc,
            "BadTag",
            u64::from(tag),
            position,
        ),
        ReadRefusal::BadShared(position, offset, have) => {
            numbers_text(alloc, "BadShared", offset, have, position)
        }
        ReadRefusal::NoTable(position) => position_text(alloc, "NoTable", position),
        ReadRefusal::BadNative(position, kind) => {
            number_text(alloc, "BadNative", u64::from(kind), position)
        }
        ReadRefusal::IntRange(position, value) => range_text(alloc, value, position),
        ReadRefusal::ZeroArray(position) => position_text(alloc, "ZeroArray", position),
        ReadRefusal::Overlong(position, need, left) => overlong_text(alloc, need, left, position),
        ReadRefusal::SizeMismatch(position, which, stated, found) => {
            mismatch_text(alloc, sum_text(which), stated, found, position)
        }
        ReadRefusal::CountMismatch(position, stated, found) => {
            numbers_text(alloc, "CountMismatch", stated, found, position)
        }
        ReadRefusal::LengthMismatch(position, left) => {
            number_text(alloc, "LengthMismatch", left, position)
        }
        ReadRefusal::Memory => Ok(String::new(alloc)),
    }
}

/// Returns the text for a value that is truncated after `taken` bytes.
pub fn truncated_text(alloc: Global, taken: u64) -> Result<String, AllocError>
    ensures { IfOk result (λ text. string_bytes text ≡ text_of_split taken) }
{
    format!(in alloc; "Truncated({taken})")
}
