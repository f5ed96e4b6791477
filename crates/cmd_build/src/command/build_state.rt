//! The state of the command `build` while the bytes of the input arrive.

ghost use Rattle.std.specs.Prelude.{◌≡◌, ◌+◌, ◌<◌, ◌^◌, ℕ, List, [], length};
ghost use Rattle.cli_spec.specs.Outcome.{Output};
ghost use Rattle.base_io.specs.StreamState.{change};
ghost use Rattle.run_types.specs.RequestedTexts.{type_over};
ghost use Rattle.cmd_build.specs.spec.InputTexts.{IsUnbroken};
ghost use Rattle.cmd_build.specs.command.LineSteps.{HasTexts, TakesLine};

use crate::command::literal_line::write_line;
use base_data::text::write;
use base_io::Sink;
use cli_errors::exit_line::Error;
use marshal_heap::heap::Heap;
use memchr::memchr;
use run_loop::work::Work;
use run_types::Requested;
use std::alloc::Global;

const LINE_FEED: u8 = 10;

/// The state of the command: the number of lines and of texts so far, and the bytes after the last
/// line feed. One line is buffered at a time. The value and the plain text of a line reuse the
/// memory of the previous line.
#[derive(Drop)]
pub struct BuildState<'a> {
    requested: &'a Requested,
    held: Vec<u8>,
    heap: Heap,
    plain: Vec<u8>,
    lines: u64,
    texts: u64,
}

impl<'a> BuildState<'a> {
    /// Creates the state before any byte is taken.
    pub fn new(alloc: Global, requested: &'a Requested) -> BuildState<'a>
        ensures requested { result.requested ≡ requested.entry }
        ensures has { HasTexts result.requested.now result.held.items result.lines result.texts
            [] [] }
    {
        requested.holds();
        BuildState {
            requested,
            held: Vec::new(alloc),
            heap: Heap::new(alloc),
            plain: Vec::new(alloc),
            lines: 0,
            texts: 0,
        }
    }

    /// Takes the end of a line, up to its line feed, and writes the line.
    fn take_line<K: Sink>(&mut self, alloc: Global, end: &[u8], out: &mut K) -> Result<(), Error>
        requires unbroken { IsUnbroken end.now }
        requires has { (bytes : List ℕ) × (output : List Output)
            × HasTexts self.old.requested.now self.old.held.items self.old.lines self.old.texts
            bytes output × (length bytes < 2 ^ 63) }
        ensures kept { self.new.requested ≡ self.old.requested }
        ensures takes { TakesLine (type_over self.old.requested.now)
            (HasTexts self.old.requested.now self.old.held.items self.old.lines self.old.texts)
            (HasTexts self.new.requested.now self.new.held.items self.new.lines self.new.texts)
            end.now (change (K.state out.old) (K.state out.new)) result }
    {
        write(&mut self.held, end)?;
        let line = self.held.as_slice();
        self.texts = write_line(
            alloc,
            &mut self.heap,
            &mut self.plain,
            self.requested,
            line,
            self.lines + 1,
            self.texts,
            out,
        )?;
        self.held.clear();
        self.lines += 1;
        Ok(())
    }
}

impl Work for BuildState<'_> {
    ghost use Rattle.run_types.specs.Language.{TypeOver, declared_types};
    ghost use Rattle.cmd_build.specs.spec.InputTexts.{building};
    ghost use Rattle.cmd_build.specs.command.InputLines.{declared_texts};

    ghost Act = { TypeOver };

    ghost commands = { building declared_types declared_texts };

    ghost act = { λ w. type_over w.requested.now };

    ghost has = { λ w read output. HasTexts w.requested.now w.held.items w.lines w.texts read output };

    fn reads(&self) -> bool {
        true
    }

    fn feed<K: Sink>(&mut self, alloc: Global, chunk: &[u8], out: &mut K) -> Result<usize, Error> {
        match memchr(LINE_FEED, chunk) {
            Some(n) => {
                self.take_line(alloc, &chunk[..n], out)?;
                Ok(n + 1)
            }
            None => {
                write(&mut self.held, chunk)?;
                Ok(chunk.len())
            }
        }
    }

    fn end<K: Sink>(&mut self, alloc: Global, out: &mut K) -> Result<bool, Error> {
        let line = self.held.as_slice();
        write_line(
            alloc,
            &mut self.heap,
            &mut self.plain,
            self.requested,
            line,
            self.lines + 1,
            self.texts,
            out,
        )?;
        Ok(true)
    }

    fn laws(&self) {}
}
