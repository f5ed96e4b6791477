//! The errors of building a table of types.

use base_data::model::Memory;

/// Error of `build`: the type reaches more than 65,536 types, or memory ran out.
#[derive(Clone, Copy)]
pub enum TypeFault {
    TooManyTypes,
    Memory,
}

impl From<Memory> for TypeFault {
    ghost use Rattle.std.specs.Prelude.{◌≡◌};
    ghost use Rattle.types_build.specs.declared.builder.type_fault.TypeFault.TheVariants as faults;

    ghost from_gives = { λ _ e. e ≡ faults.Memory };

    fn from(_e: Memory) -> TypeFault {
        TypeFault::Memory
    }
}
