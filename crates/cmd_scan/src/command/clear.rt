//! Finds how many bytes can be skipped because no magic number begins in them.

ghost use Rattle.std.specs.Prelude.{◌≡◌, ◌≤◌, ◌++◌, ◌∷◌, [], length, true, false};
ghost use Rattle.base_data.specs.model.Bytes.{AreBytes};
ghost use Rattle.cmd_scan.specs.command.Passed.{magic_prefix, AreClear};

use memchr::memmem;

// Returns true if these are the first three bytes of each magic number.
fn begin_magic(first: u8, second: u8, third: u8) -> bool
    ensures { (first ∷ second ∷ third ∷ []) ≡ magic_prefix → result ≡ true }
{
    first == 0x84 && second == 0x95 && third == 0xA6
}

// Returns true if a magic number may begin at one of three held bytes.
fn may_hold_magic(held: &[u8], buffered: &[u8]) -> bool
    requires held { length held.now ≡ 3 }
    requires buffered { 3 ≤ length buffered.now }
    ensures { result ≡ false → AreClear (held.now ++ buffered.now) 3 }
{
    if begin_magic(held[0], held[1], held[2]) {
        return true;
    }
    if begin_magic(held[1], held[2], buffered[0]) {
        return true;
    }
    begin_magic(held[2], buffered[0], buffered[1])
}

/// Returns how many of the buffered bytes can be skipped, given the three held bytes before them.
/// If the result is `n`, then no magic number begins at any of the first `n` of the held and
/// buffered bytes.
pub fn clear_bytes(held: &[u8], buffered: &[u8]) -> usize
    requires { length held.now ≡ 3 }
    ensures within { result ≤ length buffered.now }
    ensures clear { AreClear (held.now ++ buffered.now) result }
    ensures are_bytes { AreBytes buffered.now }
{
    if buffered.len() < 3 {
        return 0;
    }
    if may_hold_magic(held, buffered) {
        return 0;
    }
    match memmem::find(buffered, b"\x84\x95\xA6") {
        Some(n) => n + 3,
        None => buffered.len(),
    }
}
