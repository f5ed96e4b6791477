//! The size of a double.

ghost use Rattle.text_decimal.specs.decimal.Doubles.{IsSome};

/// The bits of a double without its sign. The double is finite and not 0.
#[derive(Clone, Copy)]
pub struct Size {
    pub bits: u64,
    pub ghost some: { IsSome bits },
}
