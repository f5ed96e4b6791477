//! Verifies a certificate entry against a value.

ghost use Rattle.std.specs.Prelude.{◌<◌, ◌↔◌, length, IfOk, IsTrue, MatchOption};
ghost use Rattle.base_data.specs.model.Graph.{IsValue};
ghost use Rattle.types_table.specs.type_table.Made.{table_of};
ghost use Rattle.check_heap.specs.scan.TypeRows.{table_in};
ghost use Rattle.cert_verify.specs.certificate.Testing.{AreAllThere, IsFirstOut, IsThereNow};
ghost use Rattle.cert_verify.specs.certificate.Verified.{Shows, IsOneAnswer, IsVerified};
ghost use Rattle.cert_verify.specs.certificate.Verified.{fault_section};
ghost use Rattle.cert_format.specs.declared.section.Section.TheVariants as sections;

use crate::certificate::held::{frequent_of, is_held};
use crate::certificate::right::are_accepted;
use crate::certificate::stated_pairs::StatedPairs;
use crate::certificate::test::test_pair;
use crate::certificate::verified::{Verified, Why};
use base_data::model::Memory;
use base_data::model::value::Val;
use cert_format::{CertificatePairs, Section};
use check_fault::is_fault;
use check_heap::scan::{Fitting, rows_of};
use marshal_heap::heap::{Heap, Rooted};
use std::alloc::Global;
use types_spec::types::fault::Fault;
use types_table::type_table::TypeTable;

/// Returns what a certificate entry proves about a value, or why the entry is rejected. Does not
/// search: tests each pair on its own, and follows each path.
pub fn verify(
    alloc: Global,
    value: &Rooted<'_>,
    table: &TypeTable,
    section: &Section,
) -> Result<Verified, Memory>
    ensures answer { IfOk result (IsVerified (table_of table.now) value.now.heap.now value.now.root
        section.now) }
    ensures shows { IfOk result (Shows (table_of table.now) value.now.heap.now value.now.root) }
    ensures one { IfOk result (IsOneAnswer (table_of table.now) value.now.heap.now value.now.root
        section.now) }
{
    table.holds();
    answer_of(alloc, value, table, section)
}

/// Verifies a certificate entry, by the kind of the entry.
fn answer_of(
    alloc: Global,
    value: &Rooted<'_>,
    table: &TypeTable,
    section: &Section,
) -> Result<Verified, Memory>
    ensures { IfOk result (IsVerified (table_of table.now) value.now.heap.now value.now.root
        section.now) }
{
    match section {
        Section::Pairs(pairs) => verify_pairs(alloc, value, table, pairs),
        Section::Mismatch(path) => {
            let path = path.copied(alloc)?;
            Ok(verify_fault(value, table, Fault::Mismatch(path)))
        }
        Section::Conflict(first, second) => {
            let first = first.copied(alloc)?;
            let second = second.copied(alloc)?;
            Ok(verify_fault(value, table, Fault::Conflict(first, second)))
        }
    }
}

/// Verifies that the paths of an entry are a fault.
fn verify_fault(value: &Rooted<'_>, table: &TypeTable, fault: Fault) -> Verified
    ensures { IsVerified (table_of table.now) value.now.heap.now value.now.root
        (fault_section fault) result }
{
    if is_fault(value, table, &fault) {
        Verified::No(fault)
    } else {
        Verified::Rejected(Why::NotFault)
    }
}

/// Returns true if the object and the type of a pair exist.
fn is_there(heap: &Heap, table: &TypeTable, pair: (u64, u64)) -> bool
    ensures { IsTrue result ↔ IsThereNow (table_of table.now) heap.now pair }
{
    pair.0 < heap.count() && pair.1 < table.count() as u64
}

/// Returns the first pair whose object or type does not exist.
fn first_out(heap: &Heap, table: &TypeTable, pairs: &CertificatePairs) -> Option<usize>
    ensures { MatchOption result (AreAllThere (table_of table.now) heap.now pairs.now)
        (IsFirstOut (table_of table.now) heap.now pairs.now) }
{
    for i in 0..pairs.len() {
        if !is_there(heap, table, pairs.at(i)) {
            return Some(i);
        }
    }
    None
}

/// Verifies that the pairs justify one another and hold the root.
fn verify_pairs<'a>(
    alloc: Global,
    value: &Rooted<'a>,
    table: &'a TypeTable,
    pairs: &'a CertificatePairs,
) -> Result<Verified, Memory>
    ensures { IfOk result (IsVerified (table_of table.now) value.now.heap.now value.now.root
        (sections.Pairs pairs.now)) }
{
    if let Some(i) = first_out(value.heap, table, pairs) {
        return Ok(Verified::Rejected(Why::Range(i as u64)));
    }
    let rows = rows_of(alloc, value.heap, table)?;
    let fitting = Fitting { table, rows: &rows };
    let stated = StatedPairs {
        heap: value.heap,
        fitting,
        pairs,
    };
    if are_accepted(value.root, stated) {
        return Ok(Verified::Yes);
    }
    verify_each(alloc, value.root, stated)
}

/// Verifies the pairs one by one, and returns the first fault of the entry, if it has one. The
/// objects and types of all pairs must exist.
fn verify_each(alloc: Global, root: Val, stated: StatedPairs<'_>) -> Result<Verified, Memory>
    requires value { IsValue (length stated.heap.now) root }
    ensures { IfOk result (IsVerified (table_in stated.entry.fitting) stated.entry.heap.now root
        (sections.Pairs stated.entry.pairs.now)) }
{
    stated.fitting.table.holds();
    let frequent = frequent_of(alloc, stated.fitting.table, stated.pairs)?;
    for i in 0..stated.pairs.len() {
        if let Some(why) = test_pair(stated, &frequent, i) {
            return Ok(Verified::Rejected(why));
        }
    }
    if is_held(
        stated,
        &frequent,
        stated.heap.word(root),
        stated.fitting.table.root(),
    ) {
        Ok(Verified::Yes)
    } else {
        Ok(Verified::Rejected(Why::Root))
    }
}
