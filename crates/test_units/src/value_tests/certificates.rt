//! Tests of the certificate entry that proves a verdict, and of the function that reads a
//! certificate as a whole, which no run calls.

ghost use Rattle.std.specs.Prelude.{◌<◌, length};
ghost use Rattle.base_data.specs.model.Graph.{IsValue};

use crate::value_tests::value_tables::{LIST, table_in, value_of};
use base_data::model::Memory;
use cert_format::{CertFault, Section, read_cert};
use cert_produce::section_of;
use cert_verify::certificate::{Verified, verify};
use check_heap::check::{Steps, check};
use marshal_heap::heap::Rooted;
use marshal_read::Value;
use std::alloc::Global;
use std::test::Fail;
use types_table::type_table::TypeTable;

// Returns the verdict that an entry proves for a value, if it proves one.
fn shown_by(
    alloc: Global,
    table: &TypeTable,
    value: &Value,
    section: &Section,
) -> Result<Option<bool>, Memory>
    requires value { IsValue (length value.now.heap) value.now.root }
{
    let borrowed = Rooted {
        heap: &value.heap,
        root: value.root,
    };
    match verify(alloc, &borrowed, table, section)? {
        Verified::Yes => Ok(Some(true)),
        Verified::No(_) => Ok(Some(false)),
        Verified::Rejected(_) => Ok(None),
    }
}

fn certified(alloc: Global, table: &TypeTable, value: &Value) -> Result<Option<bool>, Memory>
    requires value { IsValue (length value.now.heap) value.now.root }
{
    let mut steps = Steps::new();
    let verdict = check(alloc, &value.heap, value.root, table, &mut steps)?;
    let section = section_of(alloc, &value.heap, value.root, table, verdict)?;
    shown_by(alloc, table, value, &section)
}

fn certified_in(alloc: Global, table: &TypeTable) -> Result<Option<bool>, Memory> {
    match value_of(alloc, 1000, LIST)? {
        Some(value) => certified(alloc, table, &value),
        None => Ok(None),
    }
}

// Returns the verdict on the list at a type, as the list's own certificate entry proves it.
fn answer(alloc: Global, text: &[u8]) -> Result<Option<bool>, Memory> {
    match table_in(alloc, b"", text)? {
        Some(table) => certified_in(alloc, &table),
        None => Ok(None),
    }
}

// Returns the number of the first faulty line of a certificate, if a line is faulty.
fn faulty_line(alloc: Global, text: &[u8]) -> Result<Option<usize>, Memory> {
    match read_cert(alloc, text) {
        Ok(_) => Ok(None),
        Err(CertFault::Syntax(line)) => Ok(Some(line)),
        Err(CertFault::Memory) => Err(Memory),
    }
}

// The expected results were worked out by hand.
#[test]
fn verdicts_are_shown_and_certificates_read(rt: HostRuntime) -> Result<(), Fail> {
    assert!(rt; answer(rt.alloc(), b"int list")? == Some(true));
    assert!(rt; answer(rt.alloc(), b"bool list")? == Some(false));
    assert!(rt; faulty_line(rt.alloc(), b"value 0 yes\npair 0 0\nend\n")? == None);
    assert!(rt; faulty_line(rt.alloc(), b"value 0 yes\nend")? == Some(2));
    Ok(())
}
