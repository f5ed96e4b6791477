//! Encodes tokens as the runtime writes them (`extern.c`). Each function returns at most nine bytes
//! and their count.

ghost use Rattle.std.specs.Prelude.{◌≡◌, ◌<◌, ◌≤◌, ◌^◌, ◌∷◌, take};
ghost use Rattle.std.specs.Int.{bytes_high_first};
ghost use Rattle.base_data.specs.model.Graph.{IsInteger};
ghost use Rattle.marshal_spec.specs.format.Canonical.{integer_encoding, block_encoding};
ghost use Rattle.marshal_spec.specs.format.Canonical.{string_prefix};
ghost use Rattle.marshal_spec.specs.format.Canonical.{shared_encoding, doubles_prefix};

/// Encodes an integer of 63 bits (`extern_int`).
#[tactic(auto, unfolding(marshal_spec::specs::format::Canonical::integer_encoding))]
pub fn encode_int(n: i64) -> ([u8; 9], usize)
    requires { IsInteger n }
    ensures encoded { take result.1 result.0 ≡ integer_encoding n }
    ensures few { result.1 ≤ 9 }
{
    match n {
        0..64 => ([0x40 + n as u8, 0, 0, 0, 0, 0, 0, 0, 0], 1),
        -0x80..0x80 => one(0x00, (n as i8).cast_unsigned()),
        -0x8000..0x8000 => two(0x01, (n as i16).cast_unsigned()),
        -0x4000_0000..0x4000_0000 => four(0x02, (n as i32).cast_unsigned()),
        _ => eight(0x03, n.cast_unsigned()),
    }
}

/// Encodes the header of a block with this tag and size (`extern_header`). An atom is a block of
/// size 0.
#[tactic(auto, unfolding(marshal_spec::specs::format::Canonical::block_encoding))]
pub fn encode_block(tag: u8, size: u64) -> ([u8; 9], usize)
    requires tag { tag ≤ 243 }
    requires size { size < 2 ^ 54 }
    ensures encoded { take result.1 result.0 ≡ block_encoding tag size }
    ensures few { result.1 ≤ 9 }
{
    if tag < 16 && size < 8 {
        return ([0x80 + 16 * size as u8 + tag, 0, 0, 0, 0, 0, 0, 0, 0], 1);
    }
    let word = u64::from(tag) + 1024 * size;
    if word < 1 << 32 {
        four(0x08, word as u32)
    } else {
        eight(0x13, word)
    }
}

/// Encodes the code and the length that precede the content of a string of `n` bytes
/// (`extern_string`).
#[tactic(auto, unfolding(marshal_spec::specs::format::Canonical::string_prefix))]
pub fn encode_string_len(n: u64) -> ([u8; 9], usize)
    ensures encoded { take result.1 result.0 ≡ string_prefix n }
    ensures few { result.1 ≤ 9 }
{
    match n {
        0..32 => ([0x20 + n as u8, 0, 0, 0, 0, 0, 0, 0, 0], 1),
        0..0x100 => one(0x09, n as u8),
        0..0x1_0000_0000 => four(0x0a, n as u32),
        _ => eight(0x15, n),
    }
}

/// Encodes the code and the length that precede the elements of an array of `n` doubles
/// (`extern_double_array`).
#[tactic(auto, unfolding(marshal_spec::specs::format::Canonical::doubles_prefix))]
pub fn encode_double_array_len(n: u64) -> ([u8; 9], usize)
    requires { 1 ≤ n }
    ensures encoded { take result.1 result.0 ≡ doubles_prefix n }
    ensures few { result.1 ≤ 9 }
{
    match n {
        0..0x100 => one(0x0e, n as u8),
        0..0x1_0000_0000 => four(0x07, n as u32),
        _ => eight(0x17, n),
    }
}

/// Encodes a shared reference with the offset `d` (`extern_shared_reference`).
#[tactic(auto, unfolding(marshal_spec::specs::format::Canonical::shared_encoding))]
pub fn encode_shared(d: u64) -> ([u8; 9], usize)
    requires { 1 ≤ d }
    ensures encoded { take result.1 result.0 ≡ shared_encoding d }
    ensures few { result.1 ≤ 9 }
{
    match d {
        0..0x100 => one(0x04, d as u8),
        0..0x1_0000 => two(0x05, d as u16),
        0..0x1_0000_0000 => four(0x06, d as u32),
        _ => eight(0x14, d),
    }
}

// Returns a code and a number of one byte.
fn one(code: u8, number: u8) -> ([u8; 9], usize)
    ensures encoded { take result.1 result.0 ≡ code ∷ bytes_high_first 1 number }
    ensures few { result.1 ≤ 9 }
{
    ([code, number, 0, 0, 0, 0, 0, 0, 0], 2)
}

// Returns a code and a number of two bytes, most significant byte first.
fn two(code: u8, number: u16) -> ([u8; 9], usize)
    ensures encoded { take result.1 result.0 ≡ code ∷ bytes_high_first 2 number }
    ensures few { result.1 ≤ 9 }
{
    let b = number.to_be_bytes();
    ([code, b[0], b[1], 0, 0, 0, 0, 0, 0], 3)
}

// Returns a code and a number of four bytes, most significant byte first.
fn four(code: u8, number: u32) -> ([u8; 9], usize)
    ensures encoded { take result.1 result.0 ≡ code ∷ bytes_high_first 4 number }
    ensures few { result.1 ≤ 9 }
{
    let b = number.to_be_bytes();
    ([code, b[0], b[1], b[2], b[3], 0, 0, 0, 0], 5)
}

// Returns a code and a number of eight bytes, most significant byte first.
fn eight(code: u8, number: u64) -> ([u8; 9], usize)
    ensures encoded { take result.1 result.0 ≡ code ∷ bytes_high_first 8 number }
    ensures few { result.1 ≤ 9 }
{
    let b = number.to_be_bytes();
    ([code, b[0], b[1], b[2], b[3], b[4], b[5], b[6], b[7]], 9)
}
