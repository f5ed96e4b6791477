//! Decides whether bytes can still become a value, or are refused.

ghost use Rattle.std.specs.Prelude.{◌≡◌, ◌<◌, ◌^◌, length, map, IfOk};
ghost use Rattle.std.specs.List.{concat};
ghost use Rattle.marshal_spec.specs.format.Raw.{raw_measure};
ghost use Rattle.marshal_spec.specs.format.Prefix.{context, header_refusal};
ghost use Rattle.test_oracles.specs.Step.{context_of};
ghost use Rattle.test_oracles.specs.Prefix.{FirstRefused, refusal_at};

use crate::context::Context;
use crate::cut::first;
use crate::header::head_of;
use crate::raw::raw_measure;
use crate::refusal::Refusal;
use crate::step::{first_refusal, header_steps};
use crate::token_step::token_steps;
use crate::words::sums_of;
use base_data::model::code::Measure;
use base_data::model::list::List;
use std::alloc::{AllocError, Global};

/// A refusal, and the number of bytes that decide it.
#[derive(Clone, Copy)]
pub struct Decided {
    pub count: usize,
    pub refusal: Refusal,
}

/// Returns the total length of the tokens in bytes.
fn taken(tokens: &[List<u8>]) -> u64
    requires { length (concat tokens.now) < 2 ^ 64 }
    ensures { result ≡ length (concat tokens.now) }
{
    let mut taken = 0;
    for token in tokens {
        taken += token.len() as u64;
    }
    taken
}

/// Returns the objects that the tokens make.
fn measures(alloc: Global, tokens: &[List<u8>]) -> Result<Vec<Option<Measure>>, AllocError>
    ensures { IfOk result (λ all. all.items ≡ map raw_measure tokens.now) }
{
    let mut all = Vec::new(alloc);
    for token in tokens {
        all.push(raw_measure(token.as_slice()))?;
    }
    Ok(all)
}

/// Returns the context of a token after these bytes of a header and these tokens.
pub fn context(alloc: Global, header: &[u8], before: &[List<u8>]) -> Result<Context, AllocError>
    requires { length (concat before.now) < 2 ^ 64 }
    ensures { IfOk result (λ c. context_of c ≡ context header.now before.now) }
{
    Ok(Context {
        head: head_of(header),
        start: header.len() as u64,
        taken: taken(before),
        sums: sums_of(&measures(alloc, before)?),
    })
}

/// Returns the refusal of a header by its shortest refused prefix.
pub fn header_refused(limit: u64, bytes: &[u8]) -> Option<Decided>
    ensures { FirstRefused (header_refusal limit) bytes.now result }
{
    for i in 0..bytes.len() {
        let count = i + 1;
        let prefix = first(bytes, count);
        if let Some(refusal) = first_refusal(count as u128, &header_steps(limit, prefix)) {
            return Some(Decided { count, refusal });
        }
    }
    None
}

/// Returns the refusal of a token by its shortest refused prefix.
pub fn token_refused(
    alloc: Global,
    c: &Context,
    bytes: &[u8],
) -> Result<Option<Decided>, AllocError>
    ensures { IfOk result
        (λ decided. FirstRefused (refusal_at (context_of c.now)) bytes.now decided) }
{
    for i in 0..bytes.len() {
        let count = i + 1;
        let steps = token_steps(alloc, c, first(bytes, count))?;
        if let Some(refusal) = first_refusal(count as u128, &steps) {
            return Ok(Some(Decided { count, refusal }));
        }
    }
    Ok(None)
}
