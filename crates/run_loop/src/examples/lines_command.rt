//! A command that reads lines of text.

ghost use Rattle.std.specs.Prelude.{◌≡◌, ◌++◌, ◌∷◌, [], OnOk};

use crate::work::Work;
use base_data::model::Memory;
use base_io::{Sink, write_all};
use cli_errors::exit_line::Error;
use std::alloc::Global;

const LINE_FEED: u8 = 10;

/// Appends a byte to the line. If memory runs out, fails with `Memory`.
fn keep(line: &mut Vec<u8>, byte: u8) -> Result<(), Memory>
    ensures { OnOk result (line.new.items ≡ line.old.items ++ byte ∷ []) }
{
    Ok(line.push(byte)?)
}

/// Copies each line of the input to the output. The bytes after the last line feed are buffered,
/// and are written with a line feed at the end of the input.
#[derive(Drop)]
pub struct Lines {
    rest: Vec<u8>,
}

impl Lines {
    ghost use Rattle.std.specs.Prelude.{◌≡◌, []};

    /// Creates the command in the state before the first byte.
    pub fn new(alloc: Global) -> Lines
        ensures { result.rest.items ≡ [] }
    {
        Lines {
            rest: Vec::new(alloc),
        }
    }
}

impl Work for Lines {
    ghost use Rattle.run_loop.specs.examples.SmallCommands.{lines};
    ghost use Rattle.run_loop.specs.examples.TakenItems.{HasLines};

    ghost Act = { Unit {0} };

    ghost commands = { lines };

    ghost act = { λ w. tt };

    ghost has = { λ w bytes output. HasLines w.rest.items bytes output };

    fn reads(&self) -> bool {
        true
    }

    fn feed<K: Sink>(&mut self, _alloc: Global, chunk: &[u8], out: &mut K) -> Result<usize, Error> {
        let byte = chunk[0];
        keep(&mut self.rest, byte)?;
        if byte != LINE_FEED {
            return Ok(1);
        }
        write_all(out, self.rest.as_slice())?;
        self.rest.clear();
        Ok(1)
    }

    fn end<K: Sink>(&mut self, _alloc: Global, out: &mut K) -> Result<bool, Error> {
        if self.rest.is_empty() {
            return Ok(true);
        }
        keep(&mut self.rest, LINE_FEED)?;
        write_all(out, self.rest.as_slice())?;
        Ok(true)
    }

    fn laws(&self) {}
}
