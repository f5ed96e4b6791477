//! Checks, called steps, and the steps of a header (`intern.c`).

ghost use Rattle.std.specs.Prelude.{◌≡◌, Option};
ghost use Rattle.marshal_spec.specs.format.Step.{fails_if, or_else, first_refusal, magic_refusal};
ghost use Rattle.marshal_spec.specs.format.Step.{header_steps};
ghost use Rattle.test_oracles.specs.Refusal.{refusal_of, refusal_in};
ghost use Rattle.test_oracles.specs.Step.{steps_of, differ};

use crate::header::{BIG_MAGIC, COMPRESSED_MAGIC, SMALL_MAGIC, head_of, header_length, magic};
use crate::refusal::Refusal;
use base_data::model::refusal::StatedNumber;

/// A step: the number of bytes of the header or token that contain the fields read by the step, and
/// the refusal if the step fails.
#[derive(Clone, Copy)]
pub struct Step {
    pub ends: u128,
    pub refusal: Option<Refusal>,
}

/// How a number that was found is compared with the number that the header states.
#[derive(Clone, Copy)]
pub enum Comparison {
    /// The comparison fails if the found number is greater.
    Above,
    /// The comparison fails if the numbers differ.
    Other,
}

/// Returns true if the comparison fails.
pub fn differs(how: Comparison, stated: u64, found: u128) -> bool
    ensures { result ≡ differ how stated found }
{
    match how {
        Comparison::Above => u128::from(stated) < found,
        Comparison::Other => u128::from(stated) != found,
    }
}

/// Returns the refusal if the step fails.
pub fn fails_if(fails: bool, refusal: Refusal) -> Option<Refusal>
    ensures { refusal_in result ≡ fails_if fails (refusal_of refusal) }
{
    if fails { Some(refusal) } else { None }
}

/// Returns the first refusal if `first` is a refusal, and `next` otherwise.
pub fn or_else(first: Option<Refusal>, next: Option<Refusal>) -> Option<Refusal>
    ensures { refusal_in result ≡ or_else (refusal_in first) (refusal_in next) }
{
    match first {
        None => next,
        Some(refusal) => Some(refusal),
    }
}

/// Returns the refusal of the first step that fails, among the leading steps that `n` bytes decide.
pub fn first_refusal(n: u128, steps: &[Step]) -> Option<Refusal>
    ensures { refusal_in result ≡ first_refusal n (steps_of steps.now) }
{
    for step in steps {
        if n < step.ends {
            return None;
        }
        if let Some(refusal) = step.refusal {
            return Some(refusal);
        }
    }
    None
}

/// Returns the refusal of a magic number.
fn magic_refusal(magic: u64) -> Option<Refusal>
    ensures { refusal_in result ≡ magic_refusal magic }
{
    if magic == COMPRESSED_MAGIC {
        Some(Refusal::Compressed)
    } else {
        fails_if(
            !(magic == SMALL_MAGIC || magic == BIG_MAGIC),
            Refusal::BadMagic(magic),
        )
    }
}

/// The greatest number of data bytes that a value may have.
const LENGTH_LIMIT: u64 = (1 << 48) - 1;

/// Returns the steps of a header. `limit` is the greatest number of 64-bit words that a value may
/// have.
#[tactic(auto, unfolding(marshal_spec::specs::format::Step::header_steps))]
pub fn header_steps(limit: u64, header: &[u8]) -> [Step; 4]
    ensures { steps_of result ≡ header_steps limit header.now }
{
    let n = header_length(header) as u128;
    let head = head_of(header);
    [
        Step {
            ends: 4,
            refusal: magic_refusal(magic(header)),
        },
        Step {
            ends: n,
            refusal: fails_if(
                limit < head.w64,
                Refusal::TooLarge(StatedNumber::Words, head.w64, limit),
            ),
        },
        Step {
            ends: n,
            refusal: fails_if(
                LENGTH_LIMIT < head.length,
                Refusal::TooLarge(StatedNumber::Length, head.length, LENGTH_LIMIT),
            ),
        },
        Step {
            ends: n,
            refusal: fails_if(head.length == 0, Refusal::Overlong(n, 1, 0)),
        },
    ]
}
