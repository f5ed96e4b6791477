//! The pseudo-random items of a generated value.

ghost use Rattle.std.specs.Prelude.{◌≡◌, ◌^◌, ◌<◌};
ghost use Rattle.cmd_gen.specs.generator.Generated.{item_declarations, next_state, drawn, item_of};
ghost use Rattle.cmd_gen.specs.generator.Generated.{item_at, state_after};
ghost use Rattle.cmd_gen.specs.generator.Sound.{IsItem};

/// An item: the numbers that were drawn for the item, and the numbers of the earlier items to which
/// the item refers.
#[derive(Clone, Copy)]
pub enum GeneratedItem {
    Nil,
    Num(u64),
    /// A string, with its length in bytes and the byte that fills the string.
    Text(u64, u8),
    Pair(u64, u64),
    /// A new reference cell that contains an item.
    Cell(u64),
}

/// Returns the declaration of the items' type, as the text of a file of declarations.
pub fn declarations() -> &'static [u8]
    ensures { result.now ≡ item_declarations }
{
    b"type item = Nil | Num of int | Text of string | Pair of item * item | Cell of item ref"
}

/// Draws a pseudo-random number of 23 bits.
fn draw(state: &mut u64) -> u64
    requires { state.old < 2 ^ 31 }
    ensures state { state.new ≡ next_state state.old }
    ensures drawn { result ≡ drawn state.new }
    ensures range { state.new < 2 ^ 31 }
    ensures small { result < 2 ^ 23 }
{
    *state = (*state * 1103515245 + 12345) % (1 << 31);
    *state / 256
}

/// Draws item `i`, with three draws of the random generator.
pub fn draw_item(state: &mut u64, i: u64) -> GeneratedItem
    requires { state.old < 2 ^ 31 }
    ensures item { result ≡ item_at i state.old }
    ensures state { state.new ≡ state_after 3 state.old }
    ensures range { state.new < 2 ^ 31 }
    ensures sound { IsItem i result }
{
    let kind = draw(state) % 5;
    let b = draw(state);
    let c = draw(state);
    item_by(kind, i, b, c)
}

/// Returns item `i` of the given kind, computed from the drawn numbers `b` and `c`.
fn item_by(kind: u64, i: u64, b: u64, c: u64) -> GeneratedItem
    requires { b < 2 ^ 23 }
    ensures item { result ≡ item_of kind i b c }
    ensures sound { IsItem i result }
{
    match kind {
        0 => GeneratedItem::Nil,
        1 => GeneratedItem::Num(b),
        2 => GeneratedItem::Text(b % 40, b'a' + (c % 26) as u8),
        _ if i == 0 => GeneratedItem::Nil,
        3 => GeneratedItem::Pair(b % i, c % i),
        _ => GeneratedItem::Cell(b % i),
    }
}
