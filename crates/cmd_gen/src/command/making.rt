//! The command `gen` as a value that implements `Work`.

use crate::command::output_line::made_line;
use base_io::{Sink, write_all};
use cli_errors::exit_line::Error;
use run_loop::work::Work;
use run_types::Requested;
use std::alloc::Global;

/// Writes the output line for the value that is generated from a number, with a given number of
/// items, at a type.
#[derive(Drop)]
pub struct Generating<'a> {
    pub number: u64,
    pub count: u64,
    pub requested: &'a Requested,
}

impl Work for Generating<'_> {
    ghost use Rattle.run_types.specs.Language.{TypeOver, declared_types};
    ghost use Rattle.cmd_gen.specs.spec.GenSpec.{Making, gen_spec};
    ghost use Rattle.cmd_gen.specs.command.OutputLines.{making_of, HasNothing};

    ghost Act = { Making TypeOver };

    ghost commands = { gen_spec declared_types };

    ghost act = { λ w. making_of w.number w.count w.requested.now };

    ghost has = { λ w. HasNothing w.number w.count w.requested.now };

    fn reads(&self) -> bool {
        false
    }

    fn feed<K: Sink>(
        &mut self,
        _alloc: Global,
        _chunk: &[u8],
        _out: &mut K,
    ) -> Result<usize, Error> {
        Ok(0)
    }

    fn end<K: Sink>(&mut self, alloc: Global, out: &mut K) -> Result<bool, Error> {
        let line = made_line(alloc, self.number, self.count, self.requested)?;
        write_all(out, line.text.as_slice())?;
        Ok(line.ok)
    }

    fn laws(&self) {}
}
