//! Tests of the lines of a graph as they are written to a sink. The program writes the lines with
//! code of its own.

use base_data::model::value::Val;
use base_io::MemSink;
use marshal_heap::heap::{Heap, Rooted};
use std::test::Fail;
use text_print::print::dump;

// The value is a block of tag 3 with two fields. The expected lines were worked out by hand.
#[test]
fn lines_are_written(rt: HostRuntime) -> Result<(), Fail> {
    let alloc = rt.alloc();
    let mut heap = Heap::new(alloc);
    let block = heap.add_block(3, 2)?;
    assert!(rt; block < heap.count());
    let mut sink = MemSink::new(alloc, 100, Vec::new(alloc))?;
    let value = Rooted {
        heap: &heap,
        root: Val::Ref(block),
    };
    dump(alloc, &value, &mut sink)?;
    assert!(rt; sink.written() == b"root #0\n#0 block 3: 0 0\n".as_slice());
    Ok(())
}
