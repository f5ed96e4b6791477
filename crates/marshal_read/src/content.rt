//! Decodes the contents of tokens that have passed the checks.

ghost use Rattle.std.specs.Prelude.{◌≡◌, ◌*◌, length, IfOk};
ghost use Rattle.base_data.specs.model.Bytes.{EncodesDoubles};
ghost use Rattle.marshal_spec.specs.format.Token.{Token, leaf, EncodesCustom};
ghost use Rattle.marshal_heap.specs.heap.Heap.{custom_object};

use base_data::model::Memory;
use base_data::model::bytes::{double, signed, skip};
use base_data::model::code::{Custom, CustomKind};
use marshal_codec::token::custom_at;
use std::alloc::Global;

/// Decodes `count` doubles of eight bytes each, in the byte order that `little` selects. Fails with
/// `Memory` if memory runs out.
pub fn doubles_of(
    alloc: Global,
    bytes: &[u8],
    count: usize,
    little: bool,
) -> Result<Vec<u64>, Memory>
    requires { length bytes.now ≡ 8 * count }
    ensures { IfOk result (λ all. EncodesDoubles little all.items bytes.now) }
{
    let mut all = Vec::with_capacity(alloc, count)?;
    for i in 0..count {
        let bits = double(&bytes[8 * i..8 * i + 8], little);
        all.push(bits)?;
    }
    Ok(all)
}

/// Decodes the value of a custom block from the bytes after the block's code.
pub fn custom_value(rest: &[u8]) -> Custom
    requires { (t : Token) × EncodesCustom rest.now t }
    ensures { (t : Token) → EncodesCustom rest.now t → t ≡ leaf (custom_object result) }
{
    match custom_at(rest) {
        Some(CustomKind::Int32) => Custom::I32(signed(skip(rest, 3)) as i32),
        Some(CustomKind::Int64) => Custom::I64(signed(skip(rest, 3))),
        _ => Custom::Native(signed(skip(rest, 4))),
    }
}
