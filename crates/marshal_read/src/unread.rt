//! Why the steps of a header or a token end early.

ghost use Rattle.std.specs.Prelude.{◌≡◌, OnOk, None};
ghost use Rattle.marshal_read.specs.Progress.{answered, of_refusal};

use base_data::model::Memory;
use base_data::model::refusal::ReadRefusal;

/// The error of a step that does not pass: the step needs more bytes, or the step fails.
pub enum Unread {
    NeedMore,
    Refused(ReadRefusal),
}

impl From<Memory> for Unread {
    ghost use Rattle.marshal_read.specs.declared.unread.Unread.TheVariants as stops;
    ghost use Rattle.base_data.specs.declared.model.refusal.ReadRefusal.TheVariants as refusals;

    ghost from_gives = { λ _ stop. stop ≡ stops.Refused refusals.Memory };

    fn from(_: Memory) -> Unread {
        Unread::Refused(ReadRefusal::Memory)
    }
}

/// Returns `Refused` if there is a refusal, and `Ok` if there is none.
pub fn pass(refusal: Option<ReadRefusal>) -> Result<(), Unread>
    ensures steps { answered result ≡ of_refusal refusal }
    ensures goes { OnOk result (refusal ≡ None) }
{
    match refusal {
        None => Ok(()),
        Some(refusal) => Err(Unread::Refused(refusal)),
    }
}
