//! The command that selects one item of the input.

ghost use Rattle.std.specs.Prelude.{◌≡◌, ◌<◌, ◌+◌, ◌^◌, List, [], ℕ, Option, Some, length};
ghost use Rattle.cli_spec.specs.Outcome.{Output};
ghost use Rattle.base_io.specs.StreamState.{change};
ghost use Rattle.opt_skip_only.specs.only.Picked.{HasPicked, EndsBefore};
ghost use Rattle.opt_skip_only.specs.only_spec.OnlyCommand.{only_command};
ghost use Rattle.run_loop.specs.work.Works.{Feeds};

use crate::only::Counts;
use crate::only_spec::laws::PicksOne;
use base_io::{Failed, History, Sink};
use cli_errors::exit_constructors::split_value;
use cli_errors::exit_line::Error;
use cli_spec::exit::Exit;
use run_loop::work::Work;
use std::alloc::Global;
use std::marker::PhantomData;

/// A sink that discards its input.
#[derive(Drop)]
struct DiscardSink {
    history: History,
}

impl DiscardSink {
    /// Creates a sink to which nothing was written.
    fn new() -> DiscardSink {
        DiscardSink {
            history: History::new(),
        }
    }
}

impl Sink for DiscardSink {
    ghost use Rattle.std.specs.Prelude.{Some};
    ghost use Rattle.base_io.specs.History.{bytes_of};

    ghost state = { λ s. record { bytes = Some (bytes_of s.history.calls); faults = 0 } };

    fn write(&mut self, chunk: &[u8]) -> Result<usize, Failed> {
        self.history.add_moved(chunk.len(), chunk);
        Ok(chunk.len())
    }

    fn knows_bytes(&self) {}
}

/// A command with output for the item with number `picked` only, or for all items if `picked` is
/// `None`.
#[derive(Drop)]
pub struct OnlyCommand<P, W> {
    pub work: W,
    pub picked: Option<u64>,
    asked: PhantomData<P>,
}

impl<P: PicksOne, W: Counts> OnlyCommand<P, W> {
    /// Creates the command before the first byte of the input.
    pub fn new(work: W, picked: Option<u64>) -> OnlyCommand<P, W>
        requires { W.has work [] [] }
        ensures act { W.act result.work ≡ W.act work }
        ensures picked { result.picked ≡ picked }
        ensures has { HasPicked result.picked (W.has result.work) [] [] }
    {
        OnlyCommand {
            work,
            picked,
            asked: PhantomData,
        }
    }
}

/// Handles an input that ends before the selected item is complete.
fn end_before<W: Counts>(alloc: Global, work: &mut W) -> Result<bool, Error>
    requires { (bytes : List ℕ) × (output : List Output) × W.has work.old bytes output
        × (length bytes < 2 ^ 48) }
    ensures { EndsBefore W.commands (W.act work.old) (W.has work.old) result }
{
    let count = work.count();
    let mut sink = DiscardSink::new();
    match work.end(alloc, &mut sink) {
        Ok(_) => Err(Error::Exit(split_value(alloc, count, 0))),
        Err(Error::Exit(exit)) => Err(Error::Exit(exit)),
        Err(Error::WriteFault) => Err(Error::Exit(Exit::Memory)),
    }
}

/// Consumes some current bytes of the selected item, which is the next item. After the last byte of
/// the selected item, the run is finished.
fn feed_last<P: PicksOne, W: Counts, K: Sink>(
    alloc: Global,
    work: &mut W,
    number: u64,
    buffered: &[u8],
    out: &mut K,
) -> Result<usize, Error>
    requires some { 0 < length buffered.now }
    requires has { (bytes : List ℕ) × (output : List Output)
        × HasPicked (Some number) (W.has work.old) bytes output
        × (length bytes + length buffered.now < 2 ^ 63) }
    requires last { (bytes : List ℕ) (known : List Output) → W.has work.old bytes known
        → length known ≡ number }
    ensures kept { W.act work.new ≡ W.act work.old }
    ensures feeds { W.commands.Reads (W.act work.old)
        → Feeds (only_command P.picked_by W.commands) (Some number, W.act work.old)
        (HasPicked (Some number) (W.has work.old)) (HasPicked (Some number) (W.has work.new))
        buffered.now (change (K.state out.old) (K.state out.new)) result }
{
    work.laws();
    work.never_finishes();
    let taken = work.feed(alloc, buffered, out)?;
    let count = work.count();
    if number < count {
        work.laws();
        return Err(Error::Exit(Exit::Finished(work.last_ok())));
    }
    Ok(taken)
}

impl<P: PicksOne, W: Counts> Work for OnlyCommand<P, W> {
    ghost Act = { Option ℕ × W.Act };

    ghost commands = { only_command P.picked_by W.commands };

    ghost act = { λ w. (w.picked, W.act w.work) };

    ghost has = { λ w bytes output. HasPicked w.picked (W.has w.work) bytes output };

    fn reads(&self) -> bool {
        self.work.reads()
    }

    fn feed<K: Sink>(&mut self, alloc: Global, chunk: &[u8], out: &mut K) -> Result<usize, Error> {
        let Some(number) = self.picked else {
            return self.work.feed(alloc, chunk, out);
        };
        if number <= self.work.count() {
            return feed_last::<P, W, K>(alloc, &mut self.work, number, chunk, out);
        }
        self.work.never_finishes();
        let mut discarded = DiscardSink::new();
        match self.work.feed(alloc, chunk, &mut discarded) {
            Ok(taken) => Ok(taken),
            Err(Error::Exit(exit)) => Err(Error::Exit(exit)),
            Err(Error::WriteFault) => Err(Error::Exit(Exit::Memory)),
        }
    }

    fn end<K: Sink>(&mut self, alloc: Global, out: &mut K) -> Result<bool, Error> {
        match self.picked {
            None => self.work.end(alloc, out),
            Some(_) => end_before(alloc, &mut self.work),
        }
    }

    fn laws(&self) {
        self.work.laws();
    }
}
