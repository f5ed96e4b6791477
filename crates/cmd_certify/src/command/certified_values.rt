//! Certifies the values of the input, one by one, while their bytes arrive.

ghost use Rattle.std.specs.Prelude.{◌≡◌, ◌<◌, ◌+◌, ◌^◌, ℕ, List, [], length, true};
ghost use Rattle.base_data.specs.model.Graph.{IsValue};
ghost use Rattle.types_table.specs.type_table.Made.{table_of};
ghost use Rattle.cert_produce.specs.LeastFaults.{AreLeastFaults};
ghost use Rattle.cli_spec.specs.Outcome.{Output};
ghost use Rattle.base_io.specs.StreamState.{change};
ghost use Rattle.run_types.specs.RequestedTexts.{type_over};
ghost use Rattle.cmd_certify.specs.command.CertifyProgress.{HasRead, IsValueRead, WritesSection};
ghost use Rattle.cmd_certify.specs.command.CertifyProgress.{WritesNext};
ghost use Rattle.cmd_certify.specs.command.CertifyProgress.{certified};

use crate::command::value_entry::{is_yes, value_section};
use base_data::model::value::Val;
use base_io::{Sink, WriteError};
use cert_format::write_cert;
use cert_produce::LeastFaults;
use cli_errors::exit_constructors::{refused_value, split_value};
use cli_errors::exit_line::Error;
use cli_spec::exit::Exit;
use marshal_heap::heap::{Heap, Rooted};
use marshal_read::{Reader, Truncated};
use run_loop::work::Work;
use run_types::Requested;
use std::alloc::Global;
use std::mem;

/// If a heap has more than this many 64-bit words, the heap's memory is freed before the entry is
/// written.
const LARGE: u64 = 1 << 16;

// Frees the memory of a large heap before the entry is written. The text of an entry has a line for
// each object, and the whole text may be in memory.
fn give_back(alloc: Global, heap: &mut Heap) {
    if heap.words() > LARGE {
        *heap = Heap::new(alloc);
    }
}

/// Writes the certificate entry of a value, with the value's number. Returns true if the value is
/// ok. The memory of the value may be freed.
fn write_output<K: Sink>(
    alloc: Global,
    heap: &mut Heap,
    root: Val,
    requested: &Requested,
    least_faults: &LeastFaults,
    number: u64,
    out: &mut K,
) -> Result<bool, Error>
    requires value { IsValue (length heap.old) root }
    requires least_faults { AreLeastFaults (table_of requested.now.table) least_faults.now }
    ensures { WritesSection (type_over requested.now) number heap.old root
        (change (K.state out.old) (K.state out.new)) result }
{
    let section = value_section(alloc, &Rooted { heap, root }, requested, least_faults)?;
    give_back(alloc, heap);
    match write_cert(alloc, number, &section, out) {
        Ok(()) => Ok(is_yes(&section)),
        Err(WriteError::Fault) => Err(Error::WriteFault),
        Err(WriteError::Memory) => Err(Error::Exit(Exit::Memory)),
    }
}

/// The state of the command. The state contains the number of values so far, whether all values are
/// ok, the reader of the next value, and the type with its table's least numbers.
#[derive(Drop)]
pub struct Certifying<'a> {
    requested: &'a Requested,
    least_faults: &'a LeastFaults,
    limit: u64,
    reader: Reader,
    ok: bool,
    count: u64,
}

impl<'a> Certifying<'a> {
    /// Creates the state before any byte is consumed. `limit` is the maximum number of 64-bit words
    /// in a value.
    pub fn new(
        alloc: Global,
        requested: &'a Requested,
        least_faults: &'a LeastFaults,
        limit: u64,
    ) -> Certifying<'a>
        requires least_faults { AreLeastFaults (table_of requested.now.table) least_faults.now }
        ensures requested { result.requested ≡ requested.entry }
        ensures least_faults { result.least_faults ≡ least_faults.entry }
        ensures limit { result.limit ≡ limit }
        ensures has { HasRead result.requested.now result.least_faults.now result.limit
            result.reader result.count result.ok [] [] }
    {
        requested.holds();
        Certifying {
            requested,
            least_faults,
            limit,
            reader: Reader::new(alloc, limit),
            ok: true,
            count: 0,
        }
    }

    /// Writes the entry of the value that the reader has read completely. A new reader for the next
    /// value reuses the memory of the old reader.
    fn write_value<K: Sink>(&mut self, alloc: Global, out: &mut K) -> Result<(), Error>
        requires { (taken : List ℕ) × (output : List Output)
            × IsValueRead self.old.requested.now self.old.least_faults.now self.old.limit
            self.old.reader self.old.count self.old.ok taken output × (length taken < 2 ^ 64) }
        ensures requested { self.new.requested ≡ self.old.requested }
        ensures least_faults { self.new.least_faults ≡ self.old.least_faults }
        ensures limit { self.new.limit ≡ self.old.limit }
        ensures writes { (taken : List ℕ) (output : List Output)
            → IsValueRead self.old.requested.now self.old.least_faults.now self.old.limit
            self.old.reader self.old.count self.old.ok taken output
            → WritesNext self.old.requested.now self.old.least_faults.now self.old.limit
            self.new.reader
            self.new.count self.new.ok taken output (change (K.state out.old) (K.state out.new))
            result }
    {
        let reader = mem::replace(&mut self.reader, Reader::new(alloc, self.limit));
        let mut value = reader.finish();
        let ok = write_output(
            alloc,
            &mut value.heap,
            value.root,
            self.requested,
            self.least_faults,
            self.count,
            out,
        )?;
        self.reader = Reader::over(alloc, self.limit, value.heap);
        self.ok &= ok;
        self.count += 1;
        Ok(())
    }
}

impl Work for Certifying<'_> {
    ghost use Rattle.run_types.specs.Language.{TypeOver};
    ghost use Rattle.cmd_certify.specs.spec.Certification.{Certification};
    ghost use Rattle.cmd_certify.specs.command.CertifiedOutput.{on_certified};

    ghost Act = { Certification TypeOver };

    ghost commands = { on_certified };

    ghost act = { λ w. certified w.requested.now w.limit };

    ghost has = { λ w bytes output. HasRead w.requested.now w.least_faults.now w.limit w.reader w.count
        w.ok bytes output };

    fn reads(&self) -> bool {
        true
    }

    fn feed<K: Sink>(&mut self, alloc: Global, chunk: &[u8], out: &mut K) -> Result<usize, Error> {
        match self.reader.feed(chunk) {
            Ok(fed) => {
                if fed.done {
                    self.write_value(alloc, out)?;
                }
                Ok(fed.taken)
            }
            Err(refusal) => Err(Error::Exit(refused_value(alloc, self.count, refusal))),
        }
    }

    fn end<K: Sink>(&mut self, alloc: Global, _out: &mut K) -> Result<bool, Error> {
        match self.reader.at_end() {
            Ok(()) => Ok(self.ok),
            Err(Truncated { taken }) => Err(Error::Exit(split_value(alloc, self.count, taken))),
        }
    }

    fn laws(&self) {}
}
