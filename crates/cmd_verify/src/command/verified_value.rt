//! Checks a value by the value's certificate entry.

ghost use Rattle.std.specs.Prelude.{IfOk};
ghost use Rattle.types_table.specs.type_table.Made.{table_of};
ghost use Rattle.cert_verify.specs.certificate.Verified.{IsVerified};
ghost use Rattle.cert_verify.specs.declared.certificate.verified.Verified.TheVariants.{No};
ghost use Rattle.run_types.specs.RequestedTexts.{type_over};
ghost use Rattle.cmd_verify.specs.command.Judged.{Judges, JudgesAt};

use crate::command::reason::write_why;
use base_data::model::Memory;
use base_data::model::list::List;
use base_data::text::write;
use cert_format::Section;
use cert_verify::certificate::{Verified, verify};
use check_fault::fault_text;
use check_fault::laws::texts_are_of_types;
use marshal_heap::heap::Rooted;
use run_types::Requested;
use std::alloc::Global;
use types_spec::types::fault::Fault;
use types_theory::equality::table_types::tables_have_the_faults;
use types_theory::table::{tables_decide, type_or_fault};

/// The result for a value. `Line` contains the output with a line feed, and whether the value is
/// ok. `Uncertified` contains the reason why the certificate does not certify the value.
#[derive(Drop)]
pub enum VerifiedValue {
    Line(List<u8>, bool),
    Uncertified(List<u8>),
}

/// Checks a value by the certificate entry with this number. If there is no such entry, the value
/// is not certified.
pub fn judge(
    alloc: Global,
    value: &Rooted<'_>,
    requested: &Requested,
    sections: &[Section],
    number: u64,
) -> Result<VerifiedValue, Memory>
    ensures { IfOk result
        (JudgesAt (type_over requested.now) sections.now number value.now.heap.now value.now.root) }
{
    if number >= sections.len() as u64 {
        let mut reason = Vec::new(alloc);
        write(&mut reason, b"no section")?;
        return Ok(VerifiedValue::Uncertified(List::of(reason)));
    }
    judge_by(alloc, value, requested, &sections[number as usize])
}

/// Checks a value by one certificate entry.
fn judge_by(
    alloc: Global,
    value: &Rooted<'_>,
    requested: &Requested,
    section: &Section,
) -> Result<VerifiedValue, Memory>
    ensures { IfOk result (Judges (type_over requested.now) section.now value.now.heap.now
        value.now.root) }
{
    let verified = verify(alloc, value, requested.table(), section)?;
    known(alloc, value, requested, section, &verified)
}

/// Returns the output for a value, given the verifier's result for the value's certificate entry.
fn known(
    alloc: Global,
    value: &Rooted<'_>,
    requested: &Requested,
    section: &Section,
    verified: &Verified,
) -> Result<VerifiedValue, Memory>
    requires { IsVerified (table_of requested.now.table) value.now.heap.now value.now.root
        section.now verified.now }
    ensures { IfOk result (Judges (type_over requested.now) section.now value.now.heap.now
        value.now.root) }
{
    requested.holds();
    requested.table().holds();
    tables_decide();
    match verified {
        Verified::Yes => {
            let mut text = Vec::new(alloc);
            write(&mut text, b"yes\n")?;
            Ok(VerifiedValue::Line(List::of(text), true))
        }
        Verified::No(fault) => known_fault(alloc, value, requested, section, fault),
        Verified::Rejected(why) => {
            let mut text = Vec::new(alloc);
            write(&mut text, b"certificate ")?;
            write_why(&mut text, alloc, *why)?;
            Ok(VerifiedValue::Uncertified(List::of(text)))
        }
    }
}

/// Returns the output for a value whose certificate entry states a fault.
fn known_fault(
    alloc: Global,
    value: &Rooted<'_>,
    requested: &Requested,
    section: &Section,
    fault: &Fault,
) -> Result<VerifiedValue, Memory>
    requires { IsVerified (table_of requested.now.table) value.now.heap.now value.now.root
        section.now (No fault.now) }
    ensures { IfOk result (Judges (type_over requested.now) section.now value.now.heap.now
        value.now.root) }
{
    requested.holds();
    tables_decide();
    tables_have_the_faults();
    texts_are_of_types();
    type_or_fault();
    let why = fault_text(alloc, value, requested.table(), fault)?;
    let mut text = Vec::new(alloc);
    write(&mut text, b"no ")?;
    write(&mut text, why.as_slice())?;
    write(&mut text, b"\n")?;
    Ok(VerifiedValue::Line(List::of(text), false))
}
