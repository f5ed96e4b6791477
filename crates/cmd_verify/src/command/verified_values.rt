//! Verifies the values of the input, one by one, while their bytes arrive. Each value is verified
//! by its certificate entry.

ghost use Rattle.std.specs.Prelude.{◌≡◌, ◌<◌, ◌+◌, ◌^◌, ℕ, List, [], length, true};
ghost use Rattle.cli_spec.specs.Outcome.{Output};
ghost use Rattle.base_io.specs.StreamState.{change};
ghost use Rattle.run_types.specs.RequestedTexts.{type_over};
ghost use Rattle.cmd_verify.specs.command.Judged.{WritesShown};
ghost use Rattle.cmd_verify.specs.command.VerifyProgress.{HasRead, IsValueRead, WritesNext};
ghost use Rattle.cmd_verify.specs.command.VerifyProgress.{certified};

use crate::command::verified_value::{VerifiedValue, judge};
use base_io::{Sink, write_all};
use cert_format::Section;
use cli_errors::exit_constructors::{refused_value, split_value};
use cli_errors::exit_line::Error;
use cli_spec::exit::Exit;
use marshal_heap::heap::Rooted;
use marshal_read::{Reader, Truncated};
use run_loop::work::Work;
use run_types::Requested;
use std::alloc::Global;
use std::mem;

/// Writes the output for a value by the certificate entry with this number. Returns true if the
/// value is ok. If the value is not certified, fails with the exit reason.
fn write_shown<K: Sink>(
    alloc: Global,
    value: &Rooted<'_>,
    requested: &Requested,
    sections: &[Section],
    number: u64,
    out: &mut K,
) -> Result<bool, Error>
    ensures { WritesShown (type_over requested.now) sections.now number value.now.heap.now
        value.now.root (change (K.state out.old) (K.state out.new)) result }
{
    match judge(alloc, value, requested, sections, number)? {
        VerifiedValue::Line(text, ok) => {
            write_all(out, text.as_slice())?;
            Ok(ok)
        }
        VerifiedValue::Uncertified(reason) => Err(Error::Exit(Exit::Uncertified(number, reason))),
    }
}

/// The state of the command: the number of values so far, whether all values are ok, the reader of
/// the next value, and the certificate entries.
#[derive(Drop)]
pub struct Certified<'a> {
    requested: &'a Requested,
    sections: &'a [Section],
    limit: u64,
    reader: Reader,
    ok: bool,
    count: u64,
}

impl<'a> Certified<'a> {
    /// Creates the state before any byte is consumed. `limit` is the maximum number of 64-bit words
    /// in a value.
    pub fn new(
        alloc: Global,
        requested: &'a Requested,
        sections: &'a [Section],
        limit: u64,
    ) -> Certified<'a>
        ensures requested { result.requested ≡ requested.entry }
        ensures sections { result.sections ≡ sections.entry }
        ensures limit { result.limit ≡ limit }
        ensures has { HasRead result.requested.now result.sections.now result.limit result.reader
            result.count result.ok [] [] }
    {
        requested.holds();
        Certified {
            requested,
            sections,
            limit,
            reader: Reader::new(alloc, limit),
            ok: true,
            count: 0,
        }
    }

    /// Writes the output for the value that the reader has read completely. A new reader for the
    /// next value reuses the memory of the old reader.
    fn write_value<K: Sink>(&mut self, alloc: Global, out: &mut K) -> Result<(), Error>
        requires { (taken : List ℕ) × (output : List Output)
            × IsValueRead self.old.requested.now self.old.sections.now self.old.limit
            self.old.reader self.old.count self.old.ok taken output × (length taken < 2 ^ 64) }
        ensures requested { self.new.requested ≡ self.old.requested }
        ensures sections { self.new.sections ≡ self.old.sections }
        ensures limit { self.new.limit ≡ self.old.limit }
        ensures writes { (taken : List ℕ) (output : List Output)
            (v : IsValueRead self.old.requested.now self.old.sections.now self.old.limit
            self.old.reader self.old.count self.old.ok taken output)
            → WritesNext self.old.requested.now self.old.sections.now self.old.limit self.new.reader
            self.new.count self.new.ok taken output v.items v.whole
            (change (K.state out.old) (K.state out.new)) result }
    {
        let reader = mem::replace(&mut self.reader, Reader::new(alloc, self.limit));
        let value = reader.finish();
        let borrowed = Rooted {
            heap: &value.heap,
            root: value.root,
        };
        let ok = write_shown(
            alloc,
            &borrowed,
            self.requested,
            self.sections,
            self.count,
            out,
        )?;
        self.reader = Reader::over(alloc, self.limit, value.heap);
        self.ok &= ok;
        self.count += 1;
        Ok(())
    }
}

impl Work for Certified<'_> {
    ghost use Rattle.cert_format.specs.declared.section.Section.{Section};
    ghost use Rattle.run_types.specs.Language.{TypeOver};
    ghost use Rattle.cmd_verify.specs.spec.Verification.{Verification};
    ghost use Rattle.cmd_verify.specs.command.VerifyProgress.{on_certificates};

    ghost Act = { Verification TypeOver Section };

    ghost commands = { on_certificates };

    ghost act = { λ w. certified w.requested.now w.sections.now w.limit };

    ghost has = { λ w bytes output. HasRead w.requested.now w.sections.now w.limit w.reader w.count
        w.ok bytes output };

    fn reads(&self) -> bool {
        true
    }

    fn feed<K: Sink>(&mut self, alloc: Global, chunk: &[u8], out: &mut K) -> Result<usize, Error> {
        match self.reader.feed(chunk) {
            Ok(fed) => {
                if fed.done {
                    self.write_value(alloc, out)?;
                }
                Ok(fed.taken)
            }
            Err(refusal) => Err(Error::Exit(refused_value(alloc, self.count, refusal))),
        }
    }

    fn end<K: Sink>(&mut self, alloc: Global, _out: &mut K) -> Result<bool, Error> {
        match self.reader.at_end() {
            Ok(()) => {
                if self.count < self.sections.len() as u64 {
                    Err(Error::Exit(Exit::SectionsLeft))
                } else {
                    Ok(self.ok)
                }
            }
            Err(Truncated { taken }) => Err(Error::Exit(split_value(alloc, self.count, taken))),
        }
    }

    fn laws(&self) {}
}
