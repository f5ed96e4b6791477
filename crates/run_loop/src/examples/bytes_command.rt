//! A command that reads bytes and refuses one byte value.

use crate::work::Work;
use base_data::model::refusal::ReadRefusal;
use base_io::{Sink, write_all};
use cli_errors::exit_constructors::refused_value;
use cli_errors::exit_line::Error;
use std::alloc::Global;

/// Copies each byte of the input to the output, and refuses the byte value `refused`.
#[derive(Drop)]
pub struct BytesBut {
    refused: u8,
    count: u64,
}

impl BytesBut {
    ghost use Rattle.std.specs.Prelude.{◌≡◌};

    /// Creates the command in the state before the first byte.
    pub fn new(refused: u8) -> BytesBut
        ensures { result ≡ record { refused = refused; count = 0 } }
    {
        BytesBut { refused, count: 0 }
    }
}

impl Work for BytesBut {
    ghost use Rattle.std.specs.Prelude.{ℕ};
    ghost use Rattle.run_loop.specs.examples.SmallCommands.{bytes_but};
    ghost use Rattle.run_loop.specs.examples.TakenItems.{HasBytes};

    ghost Act = { ℕ };

    ghost commands = { bytes_but };

    ghost act = { λ w. w.refused };

    ghost has = { λ w bytes output. HasBytes w.refused w.count bytes output };

    fn reads(&self) -> bool {
        true
    }

    fn feed<K: Sink>(&mut self, alloc: Global, chunk: &[u8], out: &mut K) -> Result<usize, Error> {
        let byte = chunk[0];
        if byte == self.refused {
            return Err(Error::Exit(refused_value(alloc, self.count, ReadRefusal::Compressed)));
        }
        write_all(out, &[byte])?;
        self.count += 1;
        Ok(1)
    }

    fn end<K: Sink>(&mut self, _alloc: Global, _out: &mut K) -> Result<bool, Error> {
        Ok(true)
    }

    fn laws(&self) {}
}
