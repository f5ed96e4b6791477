//! Reads the next token: checks the token, and adds the value that the token encodes (`intern.c`).

ghost use Rattle.std.specs.Prelude.{◌≡◌, ◌<◌, ◌^◌, ℕ, List, length, OnOk};
ghost use Rattle.marshal_spec.specs.format.Words.{of_object, fields};
ghost use Rattle.marshal_spec.specs.format.Raw.{raw_measure};
ghost use Rattle.marshal_spec.specs.format.Token.{Token, Encodes};
ghost use Rattle.marshal_spec.specs.format.Tree.{RefersBack};
ghost use Rattle.marshal_read.specs.Build.{absorb_in, Fits};
ghost use Rattle.marshal_read.specs.Reading.{BuildsGraph, NextOf};

use crate::decode::decode;
use crate::graph_builder::Builder;
use crate::read_totals::ReadTotals;
use crate::unread::Unread;
use base_data::model::Memory;
use base_data::model::bytes::skip;
use marshal_codec::codes::{KnownKind, code_kind};
use std::alloc::Global;

/// Adds the value that a complete token encodes. The graph has room for the token's object.
fn add(alloc: Global, builder: &mut Builder, token: &[u8]) -> Result<(), Memory>
    requires short { length token.now < 2 ^ 53 }
    requires small { of_object fields (raw_measure token.now) < 2 ^ 53 }
    requires fits { Fits builder.old (raw_measure token.now) }
    requires encoded { (t : Token) × Encodes t token.now
        × RefersBack t (length builder.old.built.objects) }
    ensures { OnOk result
        ((t : Token) → Encodes t token.now → builder.new ≡ absorb_in builder.old t) }
{
    match code_kind(token[0]) {
        Ok(kind) => decode(alloc, builder, KnownKind { kind }, skip(token, 1)),
        Err(_) => unreachable!(),
    }
}

/// Checks the next token and adds the value that the token encodes. Returns the totals after the
/// token.
pub fn next_token(
    alloc: Global,
    builder: &mut Builder,
    position: &ReadTotals,
    rest: &[u8],
) -> Result<ReadTotals, Unread>
    requires open { 0 < position.now.pending }
    requires leads { (header : List ℕ) × (before : List (List ℕ))
        × BuildsGraph header before position.now builder.old }
    ensures kept { result ≡ Err Unread.NeedMore → builder.new ≡ builder.old }
    ensures next { (header : List ℕ) (before : List (List ℕ))
        → BuildsGraph header before position.now builder.old
        → NextOf header before rest.now builder.new result }
{
    if rest.is_empty() {
        return Err(Unread::NeedMore);
    }
    let next = position.judge(rest)?;
    let len = (next.taken - position.taken) as usize;
    add(alloc, builder, &rest[..len])?;
    Ok(next)
}
