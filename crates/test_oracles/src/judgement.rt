//! Decides what bytes encode.

ghost use Rattle.std.specs.Prelude.{◌≡◌, ◌≤◌, ◌<◌, ◌^◌, ◌++◌, ◌∷◌, [], ◌↔◌, take, length, IsTrue};
ghost use Rattle.std.specs.Prelude.{IfOk, OnOk};
ghost use Rattle.std.specs.List.{concat};
ghost use Rattle.marshal_spec.specs.format.Prefix.{header_refusal, IsOpen};
ghost use Rattle.marshal_spec.specs.format.Header.{header_length};
ghost use Rattle.test_oracles.specs.Judgement.{JudgesTo};

use crate::cut::first;
use crate::header::header_length;
use crate::prefix::{context, header_refused, token_refused};
use crate::raw::raw_length;
use crate::refusal::Refusal;
use crate::token::{Token, tokens_encoded};
use base_data::model::Memory;
use base_data::model::bytes::skip;
use base_data::model::list::List;
use std::alloc::{AllocError, Global};

/// The result for bytes: a prefix of a value, a value in the first `taken` bytes with its tokens in
/// preorder, or a refusal of the first `taken` bytes.
#[derive(Drop)]
pub enum Judgement {
    Prefix,
    Value { taken: usize, tokens: Vec<Token> },
    Refused { taken: usize, refusal: Refusal },
}

/// Appends the first `len` of the remaining bytes as one more token.
fn push(
    alloc: Global,
    tokens: &mut Vec<List<u8>>,
    rest: &[u8],
    len: usize,
) -> Result<(), AllocError>
    ensures { OnOk result (tokens.new.items ≡ tokens.old.items ++ take len rest.now ∷ []) }
{
    let token = Vec::from_slice(alloc, first(rest, len))?;
    tokens.push(List::of(token))?;
    Ok(())
}

/// Returns true if a value is still pending after these tokens.
fn is_open(alloc: Global, header: &[u8], tokens: &[List<u8>]) -> Result<bool, AllocError>
    requires { length (concat tokens.now) < 2 ^ 64 }
    ensures { IfOk result (λ open_after. IsTrue open_after ↔ IsOpen tokens.now) }
{
    let c = context(alloc, header, tokens)?;
    Ok(0 < c.sums.pending)
}

/// Reads one token after another, after the header.
fn judge_tokens(alloc: Global, limit: u64, bytes: &[u8]) -> Result<Judgement, AllocError>
    requires passes { header_refusal limit bytes.now ≡ None }
    requires whole { header_length bytes.now ≤ length bytes.now }
    ensures { IfOk result (JudgesTo limit bytes.now) }
{
    let start = header_length(bytes);
    let header = first(bytes, start);
    let mut tokens = Vec::new(alloc);
    let mut rest = skip(bytes, start);
    'next: loop {
        let c = context(alloc, header, &tokens)?;
        if let Some(decided) = token_refused(alloc, &c, rest)? {
            return Ok(Judgement::Refused {
                taken: bytes.len() - rest.len() + decided.count,
                refusal: decided.refusal,
            });
        }
        let len = raw_length(rest);
        if (rest.len() as u128) < len {
            return Ok(Judgement::Prefix);
        }
        push(alloc, &mut tokens, rest, len as usize)?;
        rest = skip(rest, len as usize);
        if !is_open(alloc, header, &tokens)? {
            return Ok(Judgement::Value {
                taken: bytes.len() - rest.len(),
                tokens: tokens_encoded(alloc, &tokens)?,
            });
        }
    }
}

/// Reads the header, and then the tokens.
fn judge_bytes(alloc: Global, limit: u64, bytes: &[u8]) -> Result<Judgement, AllocError>
    ensures { IfOk result (JudgesTo limit bytes.now) }
{
    if let Some(decided) = header_refused(limit, bytes) {
        return Ok(Judgement::Refused {
            taken: decided.count,
            refusal: decided.refusal,
        });
    }
    if bytes.len() < header_length(bytes) {
        return Ok(Judgement::Prefix);
    }
    judge_tokens(alloc, limit, bytes)
}

/// Returns what the bytes encode, computed from the definitions step by step. The function is slow,
/// because it computes all tokens and sums anew at each token.
pub fn judge(alloc: Global, limit: u64, bytes: &[u8]) -> Result<Judgement, Memory>
    ensures { IfOk result (JudgesTo limit bytes.now) }
{
    Ok(judge_bytes(alloc, limit, bytes)?)
}
