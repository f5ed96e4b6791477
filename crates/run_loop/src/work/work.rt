//! The trait `Work`: the interface between a command and the loop over the input.

ghost use Rattle.std.specs.Prelude.{◌≡◌, ◌<◌, ◌+◌, ◌^◌, ◌↔◌, ℕ, List, length, IsTrue};
ghost use Rattle.cli_spec.specs.Outcome.{Output};
ghost use Rattle.base_io.specs.StreamState.{change};
ghost use Rattle.run_spec.specs.runs.Account.{HaveNoExit};
ghost use Rattle.run_spec.specs.runs.Commands.{Commands};
ghost use Rattle.run_loop.specs.work.GatheredOutput.{Passes};
ghost use Rattle.run_loop.specs.work.Works.{ItemsStay, Feeds, EndsAt};

use crate::work::PassedBytes;
use base_io::Sink;
use cli_errors::exit_line::Error;
use std::alloc::Global;

/// A command that consumes its input in chunks.
pub trait Work {
    /// The type of the command's tasks.
    ghost Act: { Type 0 };

    ghost commands: { Commands Act };

    /// The task that this value of the command performs.
    ghost act: { Self → Act };

    /// This value has consumed the given bytes, which do not end the run. This value has written
    /// the given outputs for the items of the consumed bytes.
    ghost has: { Self → List ℕ → List Output → Type 0 };

    /// Returns true if the command reads the input.
    fn reads(&self) -> bool
        ensures { IsTrue result ↔ commands.Reads (act self.now) };

    /// Consumes some of the current bytes at once. The output for all items that end in the
    /// consumed bytes must be empty, or be the consumed bytes. Any number of items may end in the
    /// consumed bytes. If `pass` consumes nothing, `pass` returns `None`, and the loop calls
    /// `feed`. The default consumes nothing.
    fn pass(&mut self, _alloc: Global, _buffered: &[u8]) -> Option<PassedBytes>
        requires some { 0 < length _buffered.now }
        requires has { (bytes : List ℕ) × (output : List Output) × has self.old bytes output
            × (length bytes + length _buffered.now < 2 ^ 63) }
        ensures kept { act self.new ≡ act self.old }
        ensures passes { commands.Reads (act self.old)
            → Passes commands (act self.old) (has self.old) (has self.new) _buffered.now result }
    {
        None
    }

    /// Consumes some of the current bytes, at least one and at most up to the end of an item.
    /// Writes the output for the item that ends. Returns the number of bytes consumed. Fails if the
    /// run ends, if memory runs out, or if writing fails. The contract states nothing about a
    /// command that reads no input, because the loop never calls `feed` for such a command.
    fn feed<K: Sink>(&mut self, alloc: Global, chunk: &[u8], out: &mut K) -> Result<usize, Error>
        requires some { 0 < length chunk.now }
        requires has { (bytes : List ℕ) × (output : List Output) × has self.old bytes output
            × (length bytes + length chunk.now < 2 ^ 63) }
        ensures kept { act self.new ≡ act self.old }
        ensures feeds { commands.Reads (act self.old)
            → Feeds commands (act self.old) (has self.old) (has self.new) chunk.now
            (change (K.state out.old) (K.state out.new)) result };

    /// Writes the final output at the end of the input. Returns true if no output has an error. If
    /// the run ends early, memory runs out, or writing fails, `end` fails.
    fn end<K: Sink>(&mut self, alloc: Global, out: &mut K) -> Result<bool, Error>
        requires { (bytes : List ℕ) × (output : List Output) × has self.old bytes output
            × (length bytes < 2 ^ 48) }
        ensures { EndsAt commands (act self.old) (has self.old)
            (change (K.state out.old) (K.state out.new)) result };

    /// Proves that the consumed bytes do not end the run, and that an item stays an item if more
    /// bytes follow. `laws` is a lemma method, which does nothing at run time.
    fn laws(&self)
        ensures holds { (bytes : List ℕ) (output : List Output) → has self.now bytes output
            → HaveNoExit commands (act self.now) bytes output }
        ensures stay { ItemsStay commands (act self.now) };
}
