//! Tests of the calls of a heap that no run of the program makes.

ghost use Rattle.std.specs.Prelude.{◌≡◌, []};

use base_data::model::Memory;
use marshal_heap::heap::Heap;
use std::test::Fail;

fn fills(heap: &mut Heap) -> Result<bool, Memory>
    requires { heap.old ≡ [] }
{
    heap.add_bytes(2)?;
    heap.fill_byte(0, 1, b'z');
    let is_written = heap.byte(0, 1) == b'z';
    heap.add_doubles(2)?;
    heap.fill_double(1, 1, 7);
    Ok(is_written && heap.double(1, 1) == 7)
}

#[test]
fn contents_are_filled(rt: HostRuntime) -> Result<(), Fail> {
    let is_filled = fills(&mut Heap::new(rt.alloc()));
    assert!(rt; is_filled?);
    Ok(())
}
