//! The header of a value (`intext.h`).

ghost use Rattle.std.specs.Prelude.{◌≡◌, false};

/// The contents of a header:
///
/// - `big`: the kind of the header,
/// - `length`: the length of the data in bytes,
/// - `objects`: the number of objects,
/// - `w32` and `w64`: the sizes of the objects in words, on 32 and on 64 bits. If a big header was
///   read, `w32` is 0.
#[derive(Clone, Copy)]
pub struct Head {
    pub big: bool,
    pub length: u64,
    pub objects: u64,
    pub w32: u64,
    pub w64: u64,
}

impl Head {
    /// Returns the header of no data and no objects.
    pub fn empty() -> Head
        ensures { result
            ≡ record { big = false; length = 0; objects = 0; w32 = 0; w64 = 0 } }
    {
        Head {
            big: false,
            length: 0,
            objects: 0,
            w32: 0,
            w64: 0,
        }
    }
}
