//! Reads one token that is not a reference.

ghost use Rattle.std.specs.Prelude.{◌≡◌, IfOk};
ghost use Rattle.types_table.specs.type_table.Made.{table_of};
ghost use Rattle.marshal_codec.specs.token.Summary.{HasFewFields};
ghost use Rattle.check_stream.specs.checker.OpenPositions.{need_of};
ghost use Rattle.check_stream.specs.checker.CheckerState.{IfTook, TookSummary, IsAnswer};

use crate::checker::check_state::CheckState;
use crate::checker::leading_token::first_token;
use crate::checker::open_positions::Requirement;
use base_data::model::Memory;
use marshal_codec::token::{Summary, TokenStep};
use types_table::type_table::TypeTable;

/// The result of reading a token.
#[derive(Clone, Copy)]
pub enum TokenResult {
    /// The token was accepted, and has this length in bytes.
    Took(usize),
    /// The token is a reference, and the state has not changed.
    Back,
    /// The token does not satisfy the requirement, or the check is inconclusive.
    Unfit,
}

/// Reads a token with this summary, if the token is no reference and satisfies the requirement.
#[inline(always)]
fn take_summary<'a>(
    table: &'a TypeTable,
    state: &mut CheckState<'a>,
    asked: Requirement<'a>,
    summary: Summary,
) -> Result<bool, Memory>
    requires { HasFewFields summary }
    ensures { IfTook result
        (TookSummary (table_of table.now) state.old state.new (need_of asked.entry) summary) }
{
    match summary {
        Summary::Integer(z) => state.integer(table, asked, z),
        Summary::Atom(tag) => Ok(state.atom(table, asked, tag)),
        Summary::Shared(_) => Ok(false),
        Summary::Block(tag, size) => state.block(table, asked, tag, size),
        Summary::Bytes(size) => state.bytes(table, asked, size),
        Summary::Double => state.double(table, asked),
        Summary::Doubles(count) => state.doubles(table, asked, count),
        Summary::Custom(kind) => state.custom(table, asked, kind),
    }
}

/// Reads the first token of `rest`, if the token is no reference and satisfies the requirement.
#[inline(always)]
pub fn step<'a>(
    table: &'a TypeTable,
    stated: u64,
    state: &mut CheckState<'a>,
    asked: Requirement<'a>,
    rest: &[u8],
) -> Result<TokenResult, Memory>
    ensures { IfOk result
        (IsAnswer (table_of table.now) stated state.old state.new (need_of asked.entry) rest.now) }
{
    let TokenStep::Token(summary, len) = first_token(rest) else {
        return Ok(TokenResult::Unfit);
    };
    if let Summary::Shared(_) = summary {
        return Ok(TokenResult::Back);
    }
    if take_summary(table, state, asked, summary)? {
        Ok(TokenResult::Took(len))
    } else {
        Ok(TokenResult::Unfit)
    }
}
