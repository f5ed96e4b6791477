//! The certificate entry of a value.

ghost use Rattle.std.specs.Prelude.{◌≡◌, IfOk};
ghost use Rattle.types_table.specs.type_table.Made.{table_of};
ghost use Rattle.run_types.specs.RequestedTexts.{type_over};
ghost use Rattle.cert_produce.specs.LeastFaults.{AreLeastFaults};
ghost use Rattle.cmd_certify.specs.command.CertifiedOutput.{IsSectionOf, is_yes as is_yes_section};

use base_data::model::Memory;
use cert_format::Section;
use cert_produce::{LeastFaults, section_with};
use check_heap::check::{Steps, check};
use marshal_heap::heap::Rooted;
use run_types::Requested;
use std::alloc::Global;
use types_theory::equality::table_types::tables_have_the_faults;
use types_theory::table::tables_decide;

/// Checks a value and returns its certificate entry.
pub fn value_section(
    alloc: Global,
    value: &Rooted<'_>,
    requested: &Requested,
    least_faults: &LeastFaults,
) -> Result<Section, Memory>
    requires { AreLeastFaults (table_of requested.now.table) least_faults.now }
    ensures { IfOk result
        (IsSectionOf (type_over requested.now) value.now.heap.now value.now.root) }
{
    requested.holds();
    tables_decide();
    tables_have_the_faults();
    let table = requested.table();
    let mut steps = Steps::new();
    let verdict = check(alloc, value.heap, value.root, table, &mut steps)?;
    let section = section_with(alloc, value.heap, value.root, table, least_faults, verdict)?;
    Ok(section)
}

/// Returns true if the entry states that the value has the type.
pub fn is_yes(section: &Section) -> bool
    ensures { result ≡ is_yes_section section.now }
{
    match section {
        Section::Pairs(_) => true,
        Section::Mismatch(_) => false,
        Section::Conflict(_, _) => false,
    }
}
