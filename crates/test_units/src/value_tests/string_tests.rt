//! Tests of the text of a string whose bytes are in memory. The program prints strings word by
//! word, which `test_conformance` tests.

use std::test::Fail;
use text_print::leaves::write_string;

#[test]
fn a_string_is_escaped(rt: HostRuntime) -> Result<(), Fail> {
    let mut text = Vec::new(rt.alloc());
    write_string(&mut text, b"\n\"\\\xff'")?;
    assert!(rt; text.as_slice() == b"\"\\n\\\"\\\\\\255'\"".as_slice());
    Ok(())
}
