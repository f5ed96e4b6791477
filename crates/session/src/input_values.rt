//! The values of the input, one by one, while their bytes arrive.

ghost use Rattle.std.specs.Bool.{OnTrue};
ghost use Rattle.std.specs.Prelude.{◌≡◌, ◌<◌, ◌≤◌, ◌+◌, ◌^◌, ◌++◌, ◌∷◌, ℕ, List, [], length, OnOk};
ghost use Rattle.std.specs.Prelude.{IfSome, MatchBool};
ghost use Rattle.base_data.specs.model.Bytes.{AreBytes};
ghost use Rattle.marshal_spec.specs.format.Prefix.{IsPrefix};
ghost use Rattle.marshal_spec.specs.format.Tree.{Tree};
ghost use Rattle.cli_spec.specs.Outcome.{Output, comparison};
ghost use Rattle.base_io.specs.StreamState.{change};
ghost use Rattle.run_spec.specs.value_commands.Tasks.{commands};
ghost use Rattle.run_loop.specs.work.Works.{Feeds, EndsAt};
ghost use Rattle.session.specs.declared.input_values.ValueTask.{ValueTask};
ghost use Rattle.session.specs.declared.input_values.ValueTask.TheVariants as value_tasks;
ghost use Rattle.run_types.specs.Language.{declared_types};
ghost use Rattle.session.specs.OutputOfValue.{WritesOutput};
ghost use Rattle.session.specs.FastCheck.{IsVerdictOn, IsUnchanged, IsLeft, IsBetween, Later};
ghost use Rattle.session.specs.FastCheck.{verdict_value_task};
ghost use Rattle.session.specs.InputValues.{IsReadyValueTask, AreValues, IsFull, MayTake, HasRead};
ghost use Rattle.session.specs.InputValues.{IsValueRead, KeepsNext, WritesNext, Compares};
ghost use Rattle.session.specs.InputValues.{EndsScript};
ghost use Rattle.session.specs.InputValues.{task_of, word_limit};

use crate::earlier::{Earlier, make_room, next_reader};
use crate::edit_lines::{Edits, edit_value, line_past};
use crate::value_output::{Printing, Query, line_of};
use base_data::model::Memory;
use base_io::{Sink, write_all};
use cli_errors::exit_constructors::{refused_line, refused_value, split_value};
use cli_errors::exit_line::Error;
use cli_spec::exit::Exit;
use marshal_heap::heap::Rooted;
use marshal_heap::isomorphism::same;
use marshal_read::{Reader, Truncated, Value};
use run_types::Requested;
use std::alloc::Global;
use std::mem;

/// The operation on the values: report on each value, edit each value, or compare two values. The
/// number is the greatest number of 64-bit words in a value.
#[derive(Clone, Copy)]
pub enum ValueTask<'a> {
    Print(Printing<'a>, u64),
    Edit(Edits<'a>, u64),
    Compare(u64),
}

impl<'a> ValueTask<'a> {
    fn limit(self) -> u64
        ensures { result ≡ word_limit self.entry }
    {
        match self {
            ValueTask::Print(_, limit) => limit,
            ValueTask::Edit(_, limit) => limit,
            ValueTask::Compare(limit) => limit,
        }
    }

    /// Returns the type and the limit if the operation reports only the verdict on each value.
    pub fn verdict(self) -> Option<(&'a Requested, u64)>
        ensures { IfSome result (λ at. self.entry ≡ verdict_value_task at.0 at.1) }
    {
        match self {
            ValueTask::Print(Printing::Report(requested, Query::Verdict), limit) => Some((
                requested, limit,
            )),
            _ => None,
        }
    }
}

/// Appends a value to the kept values.
fn keep(kept: &mut Vec<Value>, value: Value) -> Result<(), Memory>
    ensures { OnOk result (kept.new.items ≡ kept.old.items ++ value ∷ []) }
{
    Ok(kept.push(value)?)
}

/// The greatest capacity in bytes of a line buffer that is kept for the next lines.
const ROOM_KEPT: usize = 1 << 20;

/// If the capacity of a line buffer is greater than `ROOM_KEPT`, frees the buffer.
fn give_back(line: &mut Vec<u8>, alloc: Global) {
    if line.capacity() > ROOM_KEPT {
        *line = Vec::new(alloc);
    }
}

/// Writes the output for a value. Returns true if the value is ok. Reuses the line buffer.
/// `mismatched` is true if the value is known to have a type mismatch, which only saves time.
fn write_output<K: Sink>(
    alloc: Global,
    value: &Rooted<'_>,
    printing: Printing<'_>,
    mismatched: bool,
    line: &mut Vec<u8>,
    out: &mut K,
) -> Result<bool, Error>
    ensures { WritesOutput printing.entry value.now.heap.now value.now.root
        (change (K.state out.old) (K.state out.new)) result }
{
    let ok = line_of(line, alloc, value, printing, mismatched)?;
    write_all(out, line.as_slice())?;
    give_back(line, alloc);
    Ok(ok)
}

/// Returns the output line of a comparison.
fn comparison_line(agree: bool) -> &'static [u8]
    ensures { result.now ≡ (comparison agree).text }
{
    if agree { b"same\n" } else { b"differ\n" }
}

/// Writes the output line of a comparison. Returns true if the two values are isomorphic. If there
/// are not exactly two values, the run ends with an error.
fn compare<K: Sink>(alloc: Global, kept: &[Value], out: &mut K) -> Result<bool, Error>
    requires { AreValues kept.now }
    ensures { Compares kept.now (change (K.state out.old) (K.state out.new)) result }
{
    if kept.len() != 2 {
        return Err(Error::Exit(Exit::NotTwoValues));
    }
    let first = &kept[0];
    let second = &kept[1];
    let agree = same(alloc, &first.heap, first.root, &second.heap, second.root)?;
    write_all(out, comparison_line(agree))?;
    Ok(agree)
}

/// The state of the values read up to now. The state has the reader of the next value, the flags
/// for all values and for the last value, and the number of values. The state also has the values
/// kept for comparison, the values from which later lines copy, and the line buffer.
#[derive(Drop)]
pub struct Values {
    reader: Reader,
    ok: bool,
    pub last: bool,
    pub count: u64,
    kept: Vec<Value>,
    earlier: Vec<Earlier>,
    line: Vec<u8>,
}

impl Values {
    /// Creates the state before any byte is taken.
    pub fn new(alloc: Global, value_task: ValueTask<'_>) -> Values
        requires { IsReadyValueTask value_task }
        ensures { HasRead value_task.entry result [] [] }
    {
        Values {
            reader: Reader::new(alloc, value_task.limit()),
            ok: true,
            last: true,
            count: 0,
            kept: Vec::new(alloc),
            earlier: Vec::new(alloc),
            line: Vec::new(alloc),
        }
    }

    /// Returns true if any further byte ends the run with an error.
    fn is_full(&self, value_task: ValueTask<'_>) -> bool
        requires { (taken : List ℕ) × (output : List Output)
            × HasRead value_task self.now taken output }
        ensures { MatchBool result (IsFull value_task.entry self.now.count)
            (MayTake value_task.entry self.now.count) }
    {
        match value_task {
            ValueTask::Print(..) | ValueTask::Edit(..) => false,
            ValueTask::Compare(_) => self.count == 2,
        }
    }

    /// Writes the output for the value that the reader has read completely. Resets the reader,
    /// which waits for the next value.
    fn write_line<K: Sink>(
        &mut self,
        alloc: Global,
        printing: Printing<'_>,
        limit: u64,
        mismatched: bool,
        out: &mut K,
    ) -> Result<(), Error>
        requires { (taken : List ℕ) × (output : List Output)
            × IsValueRead (value_tasks.Print printing limit) self.old taken output
            × (length taken < 2 ^ 64) }
        ensures { (taken : List ℕ) (output : List Output)
            (v : IsValueRead (value_tasks.Print printing.entry limit) self.old taken output)
            → WritesNext (value_tasks.Print printing.entry limit) taken output v.trees v.whole
            (change (K.state out.old) (K.state out.new)) self.new result }
    {
        let value = self.reader.borrow();
        let borrowed = Rooted {
            heap: value.heap,
            root: value.root,
        };
        let ok = write_output(alloc, &borrowed, printing, mismatched, &mut self.line, out)?;
        self.reader.restart(limit);
        self.ok &= ok;
        self.last = ok;
        self.count += 1;
        Ok(())
    }

    /// Edits the value that the reader has read completely, and writes the value's bytes. If no
    /// later line copies a part of the value, the reader for the next value reuses the value's
    /// memory.
    fn write_edited<K: Sink>(
        &mut self,
        alloc: Global,
        edits: Edits<'_>,
        limit: u64,
        out: &mut K,
    ) -> Result<(), Error>
        requires { (taken : List ℕ) × (output : List Output)
            × IsValueRead (value_tasks.Edit edits limit) self.old taken output
            × (length taken < 2 ^ 64) }
        ensures { (taken : List ℕ) (output : List Output)
            (v : IsValueRead (value_tasks.Edit edits.entry limit) self.old taken output)
            → WritesNext (value_tasks.Edit edits.entry limit) taken output v.trees v.whole
            (change (K.state out.old) (K.state out.new)) self.new result }
    {
        let reader = mem::replace(&mut self.reader, Reader::new(alloc, limit));
        let mut value = reader.finish();
        let last = edits.script.last_use(self.count).unwrap_or(0);
        make_room(&mut self.earlier, self.count, last)?;
        edit_value(
            alloc,
            &mut value,
            self.count,
            edits,
            self.earlier.as_slice(),
            out,
        )?;
        self.reader = next_reader(
            alloc,
            limit,
            &mut self.earlier,
            edits.script,
            self.count,
            value,
            last,
        );
        self.last = true;
        self.count += 1;
        Ok(())
    }

    /// Keeps the value that the reader has read completely, and creates a new reader for the next
    /// value.
    fn keep_value(&mut self, alloc: Global, limit: u64) -> Result<(), Memory>
        requires { (taken : List ℕ) × (output : List Output)
            × IsValueRead (value_tasks.Compare limit) self.old taken output
            × (length taken < 2 ^ 64) }
        ensures { (taken : List ℕ) (output : List Output)
            → IsValueRead (value_tasks.Compare limit) self.old taken output
            → KeepsNext limit taken output self.new result }
    {
        let reader = mem::replace(&mut self.reader, Reader::new(alloc, limit));
        keep(&mut self.kept, reader.finish())?;
        self.last = true;
        self.count += 1;
        Ok(())
    }

    /// Performs the operation on the value that the reader has read completely.
    fn write_value<K: Sink>(
        &mut self,
        alloc: Global,
        value_task: ValueTask<'_>,
        mismatched: bool,
        out: &mut K,
    ) -> Result<(), Error>
        requires { (taken : List ℕ) × (output : List Output)
            × IsValueRead value_task self.old taken output
            × (length taken < 2 ^ 64) }
        ensures { (taken : List ℕ) (output : List Output)
            (v : IsValueRead value_task.entry self.old taken output)
            → WritesNext value_task.entry taken output v.trees v.whole
            (change (K.state out.old) (K.state out.new)) self.new result }
    {
        match value_task {
            ValueTask::Print(printing, limit) => {
                self.write_line(alloc, printing, limit, mismatched, out)
            }
            ValueTask::Edit(edits, limit) => self.write_edited(alloc, edits, limit, out),
            ValueTask::Compare(limit) => Ok(self.keep_value(alloc, limit)?),
        }
    }

    /// Returns true if no byte of the next value was taken.
    pub fn is_between(&self) -> bool
        requires { (value_task : ValueTask) × (taken : List ℕ) × (output : List Output)
            × HasRead value_task self.now taken output }
        ensures { OnTrue result (IsBetween self.now) }
    {
        match self.reader.at_end() {
            Ok(()) => true,
            Err(_) => false,
        }
    }

    /// Takes a value whose verdict the streaming check has reported, and writes the value's line.
    /// The value consists of the bytes kept by the check and the first `n` current bytes.
    #[inline(always)]
    pub fn take_known<K: Sink>(
        &mut self,
        requested: &Requested,
        limit: u64,
        buffered: &[u8],
        n: usize,
        line: &[u8],
        is_all_ok: bool,
        out: &mut K,
    ) -> Result<usize, Error>
        requires some { 0 < n }
        requires within { n ≤ length buffered.now }
        requires short { (taken : List ℕ) × (output : List Output)
            × HasRead (verdict_value_task requested limit) self.old taken output
            × (length taken < 2 ^ 63) }
        requires between { IsBetween self.old }
        ensures { (kept : List ℕ) → AreBytes kept → IsPrefix limit kept
            → IsVerdictOn requested.now limit (length kept + n) (kept ++ buffered.now)
            (record { text = line.now; ok = is_all_ok })
            → Feeds (commands declared_types) (task_of (verdict_value_task requested.entry limit))
            (Later kept (HasRead (verdict_value_task requested.entry limit) self.old))
            (HasRead (verdict_value_task requested.entry limit) self.new) buffered.now
            (change (K.state out.old) (K.state out.new)) result }
    {
        write_all(out, line)?;
        self.ok &= is_all_ok;
        self.last = is_all_ok;
        self.count += 1;
        Ok(n)
    }

    /// Takes a value that consists of the first `n` current bytes, and writes these bytes. No
    /// script line may need the value. The streaming check must have shown that the value has the
    /// type and that the bytes are canonical.
    pub fn take_left<K: Sink>(
        &mut self,
        edits: Edits<'_>,
        limit: u64,
        buffered: &[u8],
        n: usize,
        out: &mut K,
    ) -> Result<usize, Error>
        requires some { 0 < n }
        requires short { (taken : List ℕ) × (output : List Output)
            × HasRead (value_tasks.Edit edits limit) self.old taken output
            × (length taken < 2 ^ 63) }
        requires between { IsBetween self.old }
        requires left { IsLeft edits self.old.count }
        requires unchanged { IsUnchanged edits.requested.now limit n buffered.now }
        ensures { Feeds (commands declared_types) (task_of (value_tasks.Edit edits.entry limit))
            (HasRead (value_tasks.Edit edits.entry limit) self.old)
            (HasRead (value_tasks.Edit edits.entry limit) self.new) buffered.now
            (change (K.state out.old) (K.state out.new)) result }
    {
        write_all(out, &buffered[..n])?;
        self.last = true;
        self.count += 1;
        Ok(n)
    }

    /// Takes a prefix of the next value. Fails only if memory runs out.
    pub fn take_prefix(&mut self, prefix: &[u8]) -> Result<(), Memory>
        requires { (value_task : ValueTask) × (taken : List ℕ) × (output : List Output)
            × HasRead value_task self.old taken output }
        ensures { OnOk result ((value_task : ValueTask) (taken : List ℕ) (output : List Output)
            → HasRead value_task self.old taken output → MayTake value_task self.old.count
            → HasRead value_task self.new (taken ++ prefix.now) output) }
    {
        match self.reader.feed(prefix) {
            Ok(fed) => {
                // A proper prefix does not complete a value.
                if fed.done { Err(Memory) } else { Ok(()) }
            }
            // The reader can refuse the prefix only because memory ran out.
            Err(_) => Err(Memory),
        }
    }

    /// Takes bytes up to the end of a value and writes the value's output. If the value is not
    /// complete, takes all bytes. `mismatched` is true if the value is known to have a type
    /// mismatch, which only saves time.
    pub fn read_some<K: Sink>(
        &mut self,
        alloc: Global,
        value_task: ValueTask<'_>,
        mismatched: bool,
        rest: &[u8],
        out: &mut K,
    ) -> Result<usize, Error>
        requires some { 0 < length rest.now }
        requires reads { (taken : List ℕ) × (output : List Output)
            × HasRead value_task self.old taken output
            × (length taken + length rest.now < 2 ^ 63) }
        ensures { Feeds (commands declared_types) (task_of value_task.entry)
            (HasRead value_task.entry self.old)
            (HasRead value_task.entry self.new) rest.now
            (change (K.state out.old) (K.state out.new)) result }
    {
        if self.is_full(value_task) {
            return Err(Error::Exit(Exit::NotTwoValues));
        }
        match self.reader.feed(rest) {
            Ok(fed) => {
                if fed.done {
                    self.write_value(alloc, value_task, mismatched, out)?;
                }
                Ok(fed.taken)
            }
            Err(refusal) => Err(Error::Exit(refused_value(alloc, self.count, refusal))),
        }
    }

    /// Ends the input after edits. If a line edits none of the values, the run ends with an error.
    fn finish_script(&self, alloc: Global, edits: Edits<'_>) -> Result<bool, Error>
        ensures { (trees : List Tree) → self.now.count ≡ length trees
            → EndsScript edits.entry trees self.now.ok result }
    {
        match line_past(edits.script.as_slice(), self.count) {
            Some(number) => Err(Error::Exit(refused_line(alloc, number, b"NoValue"))),
            None => Ok(self.ok),
        }
    }

    /// Ends the input. Returns true if all values are ok. A truncated value is an error. If the
    /// operation is a comparison, the two values are compared.
    pub fn finish<K: Sink>(
        &self,
        alloc: Global,
        value_task: ValueTask<'_>,
        out: &mut K,
    ) -> Result<bool, Error>
        requires { (taken : List ℕ) × (output : List Output)
            × HasRead value_task self.now taken output }
        ensures { EndsAt (commands declared_types) (task_of value_task.entry)
            (HasRead value_task.entry self.now)
            (change (K.state out.old) (K.state out.new)) result }
    {
        match self.reader.at_end() {
            Ok(()) => match value_task {
                ValueTask::Print(..) => Ok(self.ok),
                ValueTask::Edit(edits, _) => self.finish_script(alloc, edits),
                ValueTask::Compare(_) => compare(alloc, self.kept.as_slice(), out),
            },
            Err(Truncated { taken }) => Err(Error::Exit(split_value(alloc, self.count, taken))),
        }
    }
}
