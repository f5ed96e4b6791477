//! Maps the errors of a plain text to the line with decimals from which the plain text comes.

ghost use Rattle.std.specs.Prelude.{◌≡◌, ◌^◌, IfOk};
ghost use Rattle.text_decimal.specs.texts.PlainTexts.{given_position as position_in_line};
ghost use Rattle.text_decimal.specs.texts.PlainTexts.{AreWithin};
ghost use Rattle.cmd_build.specs.command.GivenLines.{given_lexer as lexer_in_line};
ghost use Rattle.cmd_build.specs.command.GivenLines.{given_literal as literal_in_line};
ghost use Rattle.cmd_build.specs.command.GivenLines.{given_fault as fault_in_line};

use base_data::model::Memory;
use text_decimal::texts::{Decimal, given_position};
use text_literal::parser::LiteralFault;
use text_roundtrip::text_lines::TextFault;
use types_lex::lexeme::LexFault;

/// Returns the offset in the line for an offset in the plain text. Texts in memory are shorter than
/// 2^63 bytes.
fn given(decimals: &[Decimal], position: usize) -> Result<usize, Memory>
    requires { AreWithin 0 decimals.now (2 ^ 63) }
    ensures { IfOk result (λ found. found ≡ position_in_line decimals.now position) }
{
    if position >= 1 << 63 {
        return Err(Memory);
    }
    Ok(given_position(decimals, position))
}

/// Maps a lexical error of the plain text to the line.
fn given_lexer(decimals: &[Decimal], fault: LexFault) -> Result<LexFault, Memory>
    requires { AreWithin 0 decimals.now (2 ^ 63) }
    ensures { IfOk result (λ found. found ≡ lexer_in_line decimals.now fault) }
{
    match fault {
        LexFault::BadByte(position) => Ok(LexFault::BadByte(given(decimals, position)?)),
        LexFault::OpenString(position) => Ok(LexFault::OpenString(given(decimals, position)?)),
        LexFault::OpenComment(position) => Ok(LexFault::OpenComment(given(decimals, position)?)),
        LexFault::TooBig(position) => Ok(LexFault::TooBig(given(decimals, position)?)),
        LexFault::Memory => Ok(LexFault::Memory),
    }
}

/// Maps an offset in a literal of the plain text to an offset in the line.
fn given_byte(decimals: &[Decimal], position: u64) -> Result<u64, Memory>
    requires { AreWithin 0 decimals.now (2 ^ 63) }
    ensures { IfOk result (λ found. found ≡ position_in_line decimals.now position) }
{
    Ok(given(decimals, position as usize)? as u64)
}

/// Maps an error of a literal in the plain text to the line.
fn given_literal(decimals: &[Decimal], fault: LiteralFault) -> Result<LiteralFault, Memory>
    requires { AreWithin 0 decimals.now (2 ^ 63) }
    ensures { IfOk result (λ found. found ≡ literal_in_line decimals.now fault) }
{
    match fault {
        LiteralFault::Syntax(position) => Ok(LiteralFault::Syntax(given_byte(decimals, position)?)),
        LiteralFault::Mismatch(position, ty) => {
            Ok(LiteralFault::Mismatch(given_byte(decimals, position)?, ty))
        }
        LiteralFault::IntRange(position) => Ok(LiteralFault::IntRange(given_byte(
            decimals, position,
        )?)),
        LiteralFault::Label(position) => Ok(LiteralFault::Label(given_byte(decimals, position)?)),
        LiteralFault::Memory => Ok(LiteralFault::Memory),
    }
}

/// Maps an error of the plain text to the line, whose decimals are `decimals`.
pub fn given_fault(decimals: &[Decimal], fault: TextFault) -> Result<TextFault, Memory>
    requires { AreWithin 0 decimals.now (2 ^ 63) }
    ensures { IfOk result (λ found. found ≡ fault_in_line decimals.now fault) }
{
    match fault {
        TextFault::Lex(fault) => Ok(TextFault::Lex(given_lexer(decimals, fault)?)),
        TextFault::Literal(fault) => Ok(TextFault::Literal(given_literal(decimals, fault)?)),
        TextFault::Memory => Ok(TextFault::Memory),
    }
}
