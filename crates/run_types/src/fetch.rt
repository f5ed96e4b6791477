//! Fetches a file and reads it completely.

ghost use Rattle.std.specs.Prelude.{◌≡◌, MatchResult};
ghost use Rattle.base_io.specs.StreamState.{as_source, change};
ghost use Rattle.run_types.specs.Fetch.{fetch_found, FetchedSome};
ghost use Rattle.run_types.specs.GatheredFile.{taken_of, GathersSome};
ghost use Rattle.run_spec.specs.runs.Given.{Gathers, Fetched};

use crate::gathered_file::{Gathered, InputEnd, LENGTH_LIMIT, store};
use base_data::model::Memory;
use base_io::{OpenError, Opener};
use std::alloc::Global;

/// The result of fetching a file.
#[derive(Drop)]
pub enum Fetch {
    Opened(Gathered),
    Missing,
    Failed,
}

// Reads the bytes of the file fetched last, up to its end, a read error or 2^48 bytes.
fn gather_file<O: Opener>(alloc: Global, files: &mut O) -> Result<Gathered, Memory>
    ensures taken { MatchResult result
        (λ g. Gathers (change (as_source (O.state files.old)) (as_source (O.state files.new)))
        (taken_of g))
        (λ _. GathersSome
        (change (as_source (O.state files.old)) (as_source (O.state files.new)))) }
    ensures frame { O.state files.new ≡ record (O.state files.old) {
      left = (O.state files.new).left;
      calls = (O.state files.new).calls;
    } }
{
    let mut bytes = Vec::new(alloc);
    let mut buffer = [0; 4096];
    while bytes.len() < LENGTH_LIMIT {
        let Ok(n) = files.take(&mut buffer) else {
            return Ok(Gathered {
                bytes,
                until: InputEnd::Fault,
            });
        };
        if n == 0 {
            return Ok(Gathered {
                bytes,
                until: InputEnd::End,
            });
        }
        store(&mut bytes, &buffer[..n])?;
    }
    Ok(Gathered {
        bytes,
        until: InputEnd::Length,
    })
}

/// Fetches a file and reads its bytes. Fails with `Memory` if memory runs out.
pub fn fetch_file<O: Opener>(alloc: Global, files: &mut O, name: &str) -> Result<Fetch, Memory>
    ensures { MatchResult result
        (λ f. Fetched (change (O.state files.old) (O.state files.new)) name.now (fetch_found f))
        (λ _. FetchedSome (change (O.state files.old) (O.state files.new)) name.now) }
{
    match files.fetch(name) {
        Ok(()) => Ok(Fetch::Opened(gather_file(alloc, files)?)),
        Err(OpenError::Missing) => Ok(Fetch::Missing),
        Err(OpenError::Failed) => Ok(Fetch::Failed),
        Err(OpenError::Memory) => Err(Memory),
    }
}
