//! Processes the values of the input. For verdicts and edits, most values are first given to the
//! streaming check.

ghost use Rattle.std.specs.Prelude.{◌≡◌, ◌≢◌, ◌<◌, ◌+◌, ◌^◌, ℕ, List, [], length, OnOk, MatchBool};
ghost use Rattle.std.specs.Bool.{OnTrue};
ghost use Rattle.cli_spec.specs.Outcome.{Output, Task};
ghost use Rattle.text_path.specs.declared.edits.ScriptLine.{ScriptLine};
ghost use Rattle.base_io.specs.StreamState.{change};
ghost use Rattle.run_spec.specs.value_commands.Tasks.{commands};
ghost use Rattle.run_loop.specs.work.Works.{Feeds};
ghost use Rattle.run_types.specs.Language.{TypeOver, declared_types};
ghost use Rattle.session.specs.declared.input_values.ValueTask.{ValueTask};
ghost use Rattle.session.specs.declared.input_values.ValueTask.TheVariants as value_tasks;
ghost use Rattle.session.specs.FastCheck.{IsBetween, IsLeft};
ghost use Rattle.session.specs.CheckProgress.{HasTaken, IsChecked};
ghost use Rattle.session.specs.InputValues.{IsReadyValueTask, HasRead, task_of};

use crate::edit_lines::Edits;
use crate::fast_check::{CheckBackoff, FastResult, Unchanged, fast_check, fast_check_unchanged};
use crate::input_values::{ValueTask, Values};
use base_data::model::Memory;
use base_io::Sink;
use check_stream::chunk_check::StreamCheck;
use cli_errors::exit_constructors::split_value;
use cli_errors::exit_line::Error;
use opt_skip_only::only::Counts;
use run_loop::work::Work;
use std::alloc::Global;
use std::mem;

/// Returns true if the streaming check has kept no bytes.
fn keeps_none(stream_check: &StreamCheck<'_>) -> bool
    ensures { MatchBool result (stream_check.now.kept.items ≡ [])
        (stream_check.now.kept.items ≢ []) }
{
    stream_check.kept().is_empty()
}

/// Returns true if the current bytes should be given to the streaming check. If the current bytes
/// continue a value that is being checked, the check continues. If a new value begins, the counters
/// of useful checks decide.
fn is_due(inspects: &mut CheckBackoff, values: &Values, stream_check: &StreamCheck<'_>) -> bool
    requires { (value_task : ValueTask) × (taken : List ℕ) × (output : List Output)
        × HasRead value_task values.now taken output }
    ensures { OnTrue result (stream_check.now.kept.items ≡ [] → IsBetween values.now) }
{
    if keeps_none(stream_check) {
        if values.is_between() {
            inspects.is_due()
        } else {
            false
        }
    } else {
        true
    }
}

/// Returns true if a value to be edited should be given to the streaming check. The value must
/// begin with the current bytes, no script line may need the value, and the counters must allow the
/// check.
fn is_left_due(
    inspects: &mut CheckBackoff,
    values: &Values,
    stream_check: &StreamCheck<'_>,
    edits: Edits<'_>,
) -> bool
    requires { (value_task : ValueTask) × (taken : List ℕ) × (output : List Output)
        × HasRead value_task values.now taken output }
    ensures { OnTrue result ((stream_check.now.kept.items ≡ []) × IsBetween values.now
        × IsLeft edits.entry values.now.count) }
{
    if !keeps_none(stream_check) {
        return false;
    }
    if !values.is_between() {
        return false;
    }
    if !edits.leave(values.count) {
        return false;
    }
    inspects.is_due()
}

/// Passes the bytes kept by the streaming check to the reader of the values, and ends the check of
/// the current value.
fn give_up(
    alloc: Global,
    values: &mut Values,
    stream_check: &mut StreamCheck<'_>,
) -> Result<(), Memory>
    requires { (value_task : ValueTask) × (taken : List ℕ) × (output : List Output)
        × HasTaken value_task values.old stream_check.old taken output }
    ensures { OnOk result ((value_task : ValueTask) (taken : List ℕ) (output : List Output)
        → HasTaken value_task values.old stream_check.old taken output
        → HasRead value_task values.new taken output
        × IsChecked value_task values.new stream_check.new × (stream_check.new.kept.items ≡ [])) }
{
    if keeps_none(stream_check) {
        return Ok(());
    }
    let kept = mem::replace(stream_check, StreamCheck::new(alloc));
    values.take_prefix(kept.kept())
}

/// The state of the operation:
///
/// - `value_task`: the operation,
/// - `values`: the values read up to now,
/// - `stream_check`: the streaming check, with the bytes that the check has kept,
/// - `inspects`: the counters of useful checks,
/// - `line`: the line buffer for `no` verdicts.
#[derive(Drop)]
pub struct SessionState<'a> {
    value_task: ValueTask<'a>,
    values: Values,
    stream_check: StreamCheck<'a>,
    inspects: CheckBackoff,
    line: Vec<u8>,
}

impl<'a> SessionState<'a> {
    /// Creates the state before any byte is taken.
    pub fn new(alloc: Global, value_task: ValueTask<'a>) -> SessionState<'a>
        requires { IsReadyValueTask value_task }
        ensures value_task { result.value_task ≡ value_task.entry }
        ensures has { HasTaken result.value_task result.values result.stream_check [] [] }
    {
        SessionState {
            value_task,
            values: Values::new(alloc, value_task),
            stream_check: StreamCheck::new(alloc),
            inspects: CheckBackoff::new(),
            line: Vec::new(alloc),
        }
    }

    /// Takes current bytes without a streaming check, after the bytes that the streaming check has
    /// kept.
    fn read_on<K: Sink>(
        &mut self,
        alloc: Global,
        buffered: &[u8],
        out: &mut K,
    ) -> Result<usize, Error>
        requires some { 0 < length buffered.now }
        requires has { (taken : List ℕ) × (output : List Output)
            × HasTaken self.old.value_task self.old.values self.old.stream_check taken output
            × (length taken + length buffered.now < 2 ^ 63) }
        ensures kept { self.new.value_task ≡ self.old.value_task }
        ensures feeds { Feeds (commands declared_types) (task_of self.old.value_task)
            (HasTaken self.old.value_task self.old.values self.old.stream_check)
            (HasTaken self.old.value_task self.new.values self.new.stream_check) buffered.now
            (change (K.state out.old) (K.state out.new)) result }
    {
        give_up(alloc, &mut self.values, &mut self.stream_check)?;
        let mismatched = self.inspects.mismatched;
        self.values
            .read_some(alloc, self.value_task, mismatched, buffered, out)
    }

    /// Takes current bytes if values are edited. If a value needs no edit, lies completely in the
    /// current bytes, and the streaming check is conclusive, then the value is written without
    /// being read.
    fn feed_edited<K: Sink>(
        &mut self,
        alloc: Global,
        edits: Edits<'a>,
        limit: u64,
        buffered: &[u8],
        out: &mut K,
    ) -> Result<usize, Error>
        requires some { 0 < length buffered.now }
        requires value_task { self.old.value_task ≡ value_tasks.Edit edits limit }
        requires has { (taken : List ℕ) × (output : List Output)
            × HasTaken self.old.value_task self.old.values self.old.stream_check taken output
            × (length taken + length buffered.now < 2 ^ 63) }
        ensures kept { self.new.value_task ≡ self.old.value_task }
        ensures feeds { Feeds (commands declared_types) (task_of self.old.value_task)
            (HasTaken self.old.value_task self.old.values self.old.stream_check)
            (HasTaken self.old.value_task self.new.values self.new.stream_check) buffered.now
            (change (K.state out.old) (K.state out.new)) result }
    {
        if !is_left_due(&mut self.inspects, &self.values, &self.stream_check, edits) {
            return self.read_on(alloc, buffered, out);
        }
        let answer = fast_check_unchanged(
            alloc,
            edits.requested,
            limit,
            &mut self.stream_check,
            buffered,
        )?;
        match answer {
            Unchanged::Whole(n) => {
                self.inspects.count_useful();
                self.values.take_left(edits, limit, buffered, n, out)
            }
            Unchanged::More => {
                self.inspects.count_useless();
                Ok(buffered.len())
            }
            Unchanged::Inconclusive => {
                self.inspects.count_useless();
                self.read_on(alloc, buffered, out)
            }
        }
    }
}

impl Work for SessionState<'_> {
    ghost Act = { Task TypeOver ScriptLine };

    ghost commands = { commands declared_types };

    ghost act = { λ p. task_of p.value_task };

    ghost has = { λ p bytes output. HasTaken p.value_task p.values p.stream_check bytes output };

    fn reads(&self) -> bool {
        true
    }

    fn feed<K: Sink>(&mut self, alloc: Global, chunk: &[u8], out: &mut K) -> Result<usize, Error> {
        if let ValueTask::Edit(edits, limit) = self.value_task {
            return self.feed_edited(alloc, edits, limit, chunk, out);
        }
        let Some((requested, limit)) = self.value_task.verdict() else {
            return self.read_on(alloc, chunk, out);
        };
        if !is_due(&mut self.inspects, &self.values, &self.stream_check) {
            return self.read_on(alloc, chunk, out);
        }
        let line = &mut self.line;
        let seen = fast_check(alloc, requested, limit, &mut self.stream_check, chunk, line)?;
        match seen {
            FastResult::Yes(n) => {
                self.inspects.count_useful();
                self.values
                    .take_known(requested, limit, chunk, n, b"yes\n", true, out)
            }
            FastResult::No(n) => {
                self.inspects.count_useful();
                let line = self.line.as_slice();
                self.values
                    .take_known(requested, limit, chunk, n, line, false, out)
            }
            FastResult::More => Ok(chunk.len()),
            FastResult::Inconclusive => {
                self.inspects.count_useless();
                self.inspects.mismatched = self.stream_check.mismatched();
                self.read_on(alloc, chunk, out)
            }
        }
    }

    fn end<K: Sink>(&mut self, alloc: Global, out: &mut K) -> Result<bool, Error> {
        if keeps_none(&self.stream_check) {
            return self.values.finish(alloc, self.value_task, out);
        }
        let kept = self.stream_check.kept().len() as u64;
        Err(Error::Exit(split_value(alloc, self.values.count, kept)))
    }

    fn laws(&self) {}
}

impl Counts for SessionState<'_> {
    fn count(&self) -> u64 {
        self.values.count
    }

    fn last_ok(&self) -> bool {
        self.values.last
    }

    fn never_finishes(&self) {}
}
