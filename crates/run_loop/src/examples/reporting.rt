//! A command that reads no input.

use crate::work::Work;
use base_io::{Sink, write_all};
use cli_errors::exit_line::Error;
use std::alloc::Global;

/// Writes a fixed text to the output.
#[derive(Drop)]
pub struct Reporting<'a> {
    pub text: &'a [u8],
}

impl Work for Reporting<'_> {
    ghost use Rattle.std.specs.Prelude.{◌≡◌, ℕ, List, []};
    ghost use Rattle.run_loop.specs.examples.SmallCommands.{reporting};

    ghost Act = { List ℕ };

    ghost commands = { reporting };

    ghost act = { λ w. w.text.now };

    ghost has = { λ w bytes output. (bytes ≡ []) × (output ≡ []) };

    fn reads(&self) -> bool {
        false
    }

    fn feed<K: Sink>(
        &mut self,
        _alloc: Global,
        _chunk: &[u8],
        _out: &mut K,
    ) -> Result<usize, Error> {
        Ok(0)
    }

    fn end<K: Sink>(&mut self, _alloc: Global, out: &mut K) -> Result<bool, Error> {
        write_all(out, self.text)?;
        Ok(true)
    }

    fn laws(&self) {}
}
