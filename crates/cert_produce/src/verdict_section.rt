//! The certificate entry of a verdict.

ghost use Rattle.std.specs.Prelude.{IfOk};
ghost use Rattle.types_table.specs.type_table.Made.{table_of};
ghost use Rattle.check_heap.specs.check.Verdict.{IsVerdict, PairsHavePaths};
ghost use Rattle.cert_verify.specs.certificate.AcceptedEntry.{IsAccepted};
ghost use Rattle.cert_produce.specs.LeastFaults.{AreLeastFaults};
ghost use Rattle.cert_produce.specs.CertifiedVerdict.{IsCertified};

use crate::least_faults::LeastFaults;
use crate::normal::normal_pairs;
use base_data::model::Memory;
use base_data::model::value::Val;
use cert_format::Section;
use check_heap::check::Verdict;
use marshal_heap::heap::Heap;
use std::alloc::Global;
use types_spec::types::fault::Fault;
use types_table::type_table::TypeTable;

/// Returns the certificate entry of a value, given the verdict of a check: the pairs that paths
/// reach, or the first fault.
pub fn section_of(
    alloc: Global,
    heap: &Heap,
    root: Val,
    table: &TypeTable,
    verdict: Verdict,
) -> Result<Section, Memory>
    requires verdict { IsVerdict (table_of table.now) heap.now root verdict }
    requires paths { PairsHavePaths (table_of table.now) heap.now root verdict }
    ensures certified { IfOk result (IsCertified (table_of table.now) heap.now root) }
    ensures accepted { IfOk result (IsAccepted (table_of table.now) heap.now root) }
{
    let least_faults = LeastFaults::of(alloc, table)?;
    section_with(alloc, heap, root, table, &least_faults, verdict)
}

/// Returns the certificate entry of one value, if entries of many values are made. `least_faults`
/// contains the least number of an equal type for each type of the table, and is computed only
/// once.
pub fn section_with(
    alloc: Global,
    _heap: &Heap,
    _root: Val,
    table: &TypeTable,
    least_faults: &LeastFaults,
    verdict: Verdict,
) -> Result<Section, Memory>
    requires least_faults { AreLeastFaults (table_of table.now) least_faults.now }
    requires verdict { IsVerdict (table_of table.now) _heap.now _root verdict }
    requires paths { PairsHavePaths (table_of table.now) _heap.now _root verdict }
    ensures certified { IfOk result (IsCertified (table_of table.now) _heap.now _root) }
    ensures accepted { IfOk result (IsAccepted (table_of table.now) _heap.now _root) }
{
    table.holds();
    match verdict {
        Verdict::Yes(typing) => {
            let pairs = normal_pairs(alloc, &typing, least_faults.as_slice())?;
            Ok(Section::Pairs(pairs))
        }
        Verdict::No(Fault::Mismatch(path)) => Ok(Section::Mismatch(path)),
        Verdict::No(Fault::Conflict(first, second)) => Ok(Section::Conflict(first, second)),
    }
}
