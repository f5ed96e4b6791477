//! The reasons why an edit is refused.

ghost use Rattle.std.specs.Prelude.{◌≡◌};
ghost use Rattle.edit_values.specs.declared.edit_refusal.EditRefusal.TheVariants as refusals;
ghost use Rattle.edit_values.specs.Reasons.{literal_reason, reason_of};

use base_data::model::Memory;
use text_literal::parser::LiteralFault;
use types_spec::types::fault::Fault;

/// The side of an edit on which a path is: before `=` or after it.
#[derive(Clone, Copy, Debug, PartialEq, Eq)]
pub enum EditSide {
    Left,
    Right,
}

/// The reason why an edit is refused. If an edit is refused, the value is unchanged.
#[derive(Drop)]
pub enum EditRefusal {
    /// The step with this index, counted from 0, leads to no required field of the value at that
    /// step.
    NoField(EditSide, usize),
    /// There is no object to copy.
    NotBlock,
    /// The lexemes are not a literal of the type at the location.
    Literal(LiteralFault),
    /// The edited value would not have its type. `Fault` is the first fault of the edited value.
    IllTyped(Fault),
    /// An allocation failed.
    Memory,
}

impl From<Memory> for EditRefusal {
    ghost from_gives = { λ _ e. e ≡ refusals.Memory };

    fn from(_e: Memory) -> EditRefusal {
        EditRefusal::Memory
    }
}

impl From<LiteralFault> for EditRefusal {
    ghost from_gives = { λ fault e. reason_of e ≡ literal_reason fault };

    fn from(fault: LiteralFault) -> EditRefusal {
        match fault {
            LiteralFault::Memory => EditRefusal::Memory,
            _ => EditRefusal::Literal(fault),
        }
    }
}
