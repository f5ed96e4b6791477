//! The command that skips the first bytes of the input.

ghost use Rattle.std.specs.Prelude.{◌≡◌, ◌≤◌, ◌<◌, []};
ghost use Rattle.cli_spec.specs.Outcome.{Output};
ghost use Rattle.opt_skip_only.specs.skip.SkipCommand.{passed_of, HasPassed};

use crate::skip_spec::laws::PassesOver;
use base_io::{Sink, write_all};
use cli_errors::exit_line::Error;
use cli_spec::exit::Exit;
use run_loop::work::{PassedBytes, Work};
use std::alloc::Global;
use std::marker::PhantomData;

/// The number of bytes to skip, and whether the skipped bytes are written unchanged.
#[derive(Clone, Copy)]
pub struct Over {
    pub bytes: u64,
    pub copied: bool,
}

/// A command that skips the first bytes of the input and consumes the bytes after the skipped
/// bytes. `left` is the number of bytes that remain to be skipped.
#[derive(Drop)]
pub struct SkipCommand<P, W> {
    pub work: W,
    pub over: Over,
    left: u64,
    asked: PhantomData<P>,
}

impl<P: PassesOver, W: Work> SkipCommand<P, W> {
    /// Creates the command before the first byte of the input.
    pub fn new(work: W, over: Over) -> SkipCommand<P, W>
        requires { W.has work [] [] }
        ensures act { W.act result.work ≡ W.act work }
        ensures over { result.over ≡ over }
        ensures has { HasPassed (passed_of result.over) (W.has result.work) result.left [] [] }
    {
        SkipCommand {
            work,
            over,
            left: over.bytes,
            asked: PhantomData,
        }
    }
}

// Returns how many of the current bytes are skipped.
fn first_bytes(left: u64, buffered: usize) -> usize
    requires left { 0 < left }
    requires some { 0 < buffered }
    ensures some { 0 < result }
    ensures within { result ≤ buffered }
    ensures fits { result ≤ left }
{
    if left < buffered as u64 {
        left as usize
    } else {
        buffered
    }
}

impl<P: PassesOver, W: Work> Work for SkipCommand<P, W> {
    ghost use Rattle.opt_skip_only.specs.skip_spec.Skipping.{SkippedBytes, skipping};

    ghost Act = { SkippedBytes × W.Act };

    ghost commands = { skipping P.passed_by W.commands };

    ghost act = { λ w. (passed_of w.over, W.act w.work) };

    ghost has = { λ w bytes output. HasPassed (passed_of w.over) (W.has w.work) w.left bytes output };

    fn reads(&self) -> bool {
        self.work.reads()
    }

    fn pass(&mut self, _alloc: Global, buffered: &[u8]) -> Option<PassedBytes> {
        if self.left == 0 {
            return None;
        }
        self.work.laws();
        let bytes = first_bytes(self.left, buffered.len());
        self.left -= bytes as u64;
        Some(PassedBytes {
            bytes,
            copied: self.over.copied,
        })
    }

    fn feed<K: Sink>(&mut self, alloc: Global, chunk: &[u8], out: &mut K) -> Result<usize, Error> {
        if self.left == 0 {
            return self.work.feed(alloc, chunk, out);
        }
        if self.over.copied {
            write_all(out, &chunk[..1])?;
        }
        self.left -= 1;
        Ok(1)
    }

    fn end<K: Sink>(&mut self, alloc: Global, out: &mut K) -> Result<bool, Error> {
        if self.left > 0 {
            return Err(Error::Exit(Exit::Short(self.over.bytes - self.left)));
        }
        self.work.end(alloc, out)
    }

    fn laws(&self) {
        self.work.laws();
    }
}
