//! The verdict on a value at the type.

ghost use Rattle.std.specs.Prelude.{◌<◌, ◌≡◌, ℕ, List, length, OnOk, IfOk, MatchBool};
ghost use Rattle.marshal_spec.specs.format.Tree.{root, objects_of};
ghost use Rattle.types_table.specs.type_table.Made.{table_of};
ghost use Rattle.check_stream.specs.mismatch_search.Find.{IsFound};
ghost use Rattle.run_types.specs.RequestedTexts.{type_over};
ghost use Rattle.run_types.specs.TypeVerdict.{IsVerdictOf, WritesNo};
ghost use Rattle.check_heap.specs.declared.check.verdict.Verdict.TheVariants.{No};

use crate::requested::Requested;
use base_data::model::Memory;
use base_data::text::write;
use check_fault::laws::texts_are_of_types;
use check_fault::{find_near, write_fault, write_missed, write_near};
use check_heap::check::{Steps, Verdict, check, check_mismatched};
use check_stream::mismatch_search::{FoundMismatch, found_has_line};
use marshal_heap::heap::Rooted;
use std::alloc::Global;
use types_spec::types::fault::Fault;
use types_theory::equality::table_types::tables_have_the_faults;
use types_theory::table::tables_decide;

/// Checks whether the value has the type. If the value does not have the type, the verdict states
/// its first fault. Fails with `Memory` if memory runs out.
pub fn find_verdict(
    alloc: Global,
    value: &Rooted<'_>,
    requested: &Requested,
) -> Result<Verdict, Memory>
    ensures { IfOk result (IsVerdictOf requested.now value.now.heap.now value.now.root) }
{
    let mut steps = Steps::new();
    check(alloc, value.heap, value.root, requested.table(), &mut steps)
}

/// As `find_verdict`, faster if the value has a type mismatch.
pub fn find_fault(
    alloc: Global,
    value: &Rooted<'_>,
    requested: &Requested,
) -> Result<Verdict, Memory>
    ensures { IfOk result (IsVerdictOf requested.now value.now.heap.now value.now.root) }
{
    let mut steps = Steps::new();
    check_mismatched(alloc, value.heap, value.root, requested.table(), &mut steps)
}

/// Appends `no` and the first fault. Fails with `Memory` if memory runs out.
pub fn write_no(
    text: &mut Vec<u8>,
    alloc: Global,
    value: &Rooted<'_>,
    requested: &Requested,
    fault: &Fault,
) -> Result<(), Memory>
    requires least { IsVerdictOf requested.now value.now.heap.now value.now.root (No fault.now) }
    ensures { OnOk result
        (WritesNo (type_over requested.now) value.now.heap.now value.now.root
        text.old.items text.new.items) }
{
    requested.holds();
    tables_decide();
    tables_have_the_faults();
    texts_are_of_types();
    write(text, b"no ")?;
    write_fault(text, alloc, value, requested.table(), fault)?;
    Ok(())
}

/// Fast path for faults near the root of small values. If a fault is found, appends `no` and the
/// value's first fault, and returns true. If not, appends nothing and returns false. Fails with
/// `Memory` if memory runs out.
pub fn write_near_no(
    text: &mut Vec<u8>,
    alloc: Global,
    value: &Rooted<'_>,
    requested: &Requested,
) -> Result<bool, Memory>
    ensures { IfOk result
        (λ known. MatchBool known
        (WritesNo (type_over requested.now) value.now.heap.now value.now.root
        text.old.items text.new.items)
        (text.new.items ≡ text.old.items)) }
{
    requested.holds();
    tables_decide();
    tables_have_the_faults();
    texts_are_of_types();
    let table = requested.table();
    let Some(near) = find_near(value, table) else {
        return Ok(false);
    };
    write(text, b"no ")?;
    write_near(text, alloc, value.heap, table, near)?;
    Ok(true)
}

/// Appends `no` and the mismatch that was found, which is the first fault of its value. Fails with
/// `Memory` if memory runs out.
pub fn write_missed_no(
    text: &mut Vec<u8>,
    alloc: Global,
    requested: &Requested,
    found: &FoundMismatch,
) -> Result<(), Memory>
    requires number { found.now.ty < length requested.now.table.nodes }
    ensures { OnOk result ((limit n : ℕ) (bytes : List ℕ)
        (f : IsFound (table_of requested.now.table) limit n bytes found.now)
        → WritesNo (type_over requested.now) (objects_of f.prefix.tree 0) (root f.prefix.tree 0)
        text.old.items text.new.items) }
{
    requested.holds();
    tables_decide();
    tables_have_the_faults();
    texts_are_of_types();
    found_has_line();
    write(text, b"no ")?;
    write_missed(text, alloc, requested.table(), found)?;
    Ok(())
}
