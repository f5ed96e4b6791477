//! The steps of a token (`intern.c`).

ghost use Rattle.std.specs.Prelude.{◌≡◌, ◌<◌, ◌^◌, ◌++◌, length, IfOk, OnOk};
ghost use Rattle.marshal_spec.specs.format.Code.{custom_of};
ghost use Rattle.marshal_spec.specs.format.Raw.{measure_after};
ghost use Rattle.marshal_spec.specs.format.Step.{position, left_after, overlong, code_refusal};
ghost use Rattle.marshal_spec.specs.format.Step.{integer_refusal};
ghost use Rattle.marshal_spec.specs.format.Step.{shared_refusal, field_refusal, native_steps};
ghost use Rattle.marshal_spec.specs.format.Step.{variable_steps};
ghost use Rattle.marshal_spec.specs.format.Step.{words32_refusal, words64_refusal, end_steps};
ghost use Rattle.marshal_spec.specs.format.Step.{entry_steps};
ghost use Rattle.marshal_spec.specs.format.Step.{closing_steps, steps_after, token_steps};
ghost use Rattle.test_oracles.specs.Refusal.{refusal_of, refusal_in};
ghost use Rattle.test_oracles.specs.Step.{steps_of, context_of, differ};
ghost use Rattle.test_oracles.specs.Sums.{sums_in};

use crate::code::{custom_of, kind_of, native_bytes};
use crate::context::Context;
use crate::cut::{byte_at, first, integer_of, number_of};
use crate::raw::{field_bytes, fixed_bytes, measure_after, sizing_bytes, variable_bytes};
use crate::refusal::Refusal;
use crate::step::{Comparison, Step, differs, fails_if, or_else};
use crate::words::{Sums, one_more};
use base_data::model::bytes::skip;
use base_data::model::code::{CodeFault, CodeKind, CustomKind};
use base_data::model::header::Head;
use base_data::model::refusal::WordSum;
use marshal_codec::codes::KnownKind;
use std::alloc::{AllocError, Global};

/// Returns the offset of the token from the first byte of the header.
fn position(c: &Context) -> u128
    ensures position { result ≡ position (context_of c.now) }
    ensures few { result < 2 ^ 65 }
{
    u128::from(c.start) + u128::from(c.taken)
}

/// Returns the number of data bytes after the first `n` bytes of the token.
fn left_after(c: &Context, n: u128) -> u128
    requires { n < 2 ^ 70 }
    ensures { result ≡ left_after (context_of c.now) n }
{
    u128::from(c.head.length).saturating_sub(u128::from(c.taken) + n)
}

/// Returns a refusal if fewer than `need` data bytes follow the first `n` bytes of the token.
fn overlong(c: &Context, need: u128, n: u128) -> Option<Refusal>
    requires { n < 2 ^ 70 }
    ensures { refusal_in result ≡ overlong (context_of c.now) need n }
{
    let left = left_after(c, n);
    fails_if(left < need, Refusal::Overlong(position(c), need, left))
}

/// Returns the refusal of a code that begins no token.
fn code_refusal(fault: CodeFault, position: u128, code: u8) -> Refusal
    ensures { refusal_of result ≡ code_refusal fault position code }
{
    match fault {
        CodeFault::BadCode => Refusal::BadCode(position, code),
        CodeFault::PointerCode => Refusal::PointerCode(position, code),
        CodeFault::CustomLen => Refusal::OtherCustom(position, code),
    }
}

/// Returns the refusal of an integer of eight bytes.
fn integer_refusal(c: &Context, value: i64) -> Option<Refusal>
    ensures { refusal_in result ≡ integer_refusal (context_of c.now) value }
{
    fails_if(
        value < -(1 << 62) || value >= 1 << 62,
        Refusal::IntRange(position(c), value),
    )
}

/// Returns the refusal of the offset of a reference.
fn shared_refusal(c: &Context, offset: u64) -> Option<Refusal>
    ensures { refusal_in result ≡ shared_refusal (context_of c.now) offset }
{
    let found = c.sums.objects;
    or_else(
        fails_if(
            offset == 0 || found < u128::from(offset),
            Refusal::BadShared(position(c), offset, found),
        ),
        fails_if(c.head.objects == 0, Refusal::NoTable(position(c))),
    )
}

/// Returns the refusal of the fields of the token.
fn field_refusal(c: &Context, code: u8, kind: KnownKind, rest: &[u8]) -> Option<Refusal>
    ensures { refusal_in result ≡ field_refusal (context_of c.now) code kind.kind rest.now }
{
    match kind.kind {
        CodeKind::Int(8) => integer_refusal(c, integer_of(rest)),
        CodeKind::Shared(width) => shared_refusal(c, number_of(rest, usize::from(width))),
        CodeKind::Block(width) => {
            let tag = (number_of(rest, usize::from(width)) % 256) as u8;
            fails_if(tag > 243, Refusal::BadTag(position(c), tag))
        }
        CodeKind::Doubles(width, _) => fails_if(
            number_of(rest, usize::from(width)) == 0,
            Refusal::ZeroArray(position(c)),
        ),
        CodeKind::Custom(_) => fails_if(
            custom_of(first(rest, 3)).is_none(),
            Refusal::OtherCustom(position(c), code),
        ),
        _ => None,
    }
}

/// Returns the steps of a `Nativeint` after its identifier.
fn native_steps(c: &Context, kind: u8) -> [Step; 3]
    ensures { steps_of result ≡ native_steps (context_of c.now) kind }
{
    let number = u128::from(native_bytes(kind));
    [
        Step {
            ends: 4,
            refusal: overlong(c, 1, 4),
        },
        Step {
            ends: 5,
            refusal: fails_if(number == 0, Refusal::BadNative(position(c), kind)),
        },
        Step {
            ends: 5,
            refusal: overlong(c, number, 5),
        },
    ]
}

/// Appends the steps of the bytes after the fixed bytes.
fn add_variable(
    c: &Context,
    kind: KnownKind,
    custom: Option<CustomKind>,
    rest: &[u8],
    steps: &mut Vec<Step>,
) -> Result<(), AllocError>
    ensures { OnOk result
        (steps_of steps.new.items
        ≡ steps_of steps.old.items ++ variable_steps (context_of c.now) kind.kind custom rest.now) }
{
    match (kind.kind, custom) {
        (CodeKind::Custom(_), Some(CustomKind::Native)) => {
            steps.extend_from_slice(&native_steps(c, byte_at(rest, 3)))
        }
        _ => steps.extend_from_slice(&[Step {
            ends: 1 + field_bytes(kind.kind),
            refusal: overlong(c, variable_bytes(kind, rest), 1 + fixed_bytes(kind.kind)),
        }]),
    }
}

/// Compares the number of 32-bit words with the header. A big header does not state this number.
fn words32_refusal(how: Comparison, position: u128, head: Head, found: u128) -> Option<Refusal>
    ensures { refusal_in result ≡ words32_refusal (differ how) position head found }
{
    fails_if(
        !head.big && differs(how, head.w32, found),
        Refusal::SizeMismatch(position, WordSum::W32, head.w32, found),
    )
}

/// Compares the number of 64-bit words with the header.
fn words64_refusal(how: Comparison, position: u128, head: Head, found: u128) -> Option<Refusal>
    ensures { refusal_in result ≡ words64_refusal (differ how) position head found }
{
    fails_if(
        differs(how, head.w64, found),
        Refusal::SizeMismatch(position, WordSum::W64, head.w64, found),
    )
}

/// Returns the steps after the last token, which has `n` bytes.
fn end_steps(c: &Context, n: u128, all: Sums) -> [Step; 4]
    requires { n < 2 ^ 70 }
    ensures { steps_of result ≡ end_steps (context_of c.now) n (sums_in all) }
{
    let p = position(c) + n;
    let left = left_after(c, n);
    [
        Step {
            ends: n,
            refusal: fails_if(0 < left, Refusal::LengthMismatch(p, left)),
        },
        Step {
            ends: n,
            refusal: words32_refusal(Comparison::Other, p, c.head, all.w32),
        },
        Step {
            ends: n,
            refusal: words64_refusal(Comparison::Other, p, c.head, all.w64),
        },
        Step {
            ends: n,
            refusal: fails_if(
                c.head.objects != 0 && differs(Comparison::Other, c.head.objects, all.objects),
                Refusal::CountMismatch(p, c.head.objects, all.objects),
            ),
        },
    ]
}

/// Returns the steps of the fixed bytes and of the fields.
fn entry_steps(c: &Context, code: u8, kind: KnownKind, rest: &[u8]) -> [Step; 2]
    ensures { steps_of result ≡ entry_steps (context_of c.now) code kind.kind rest.now }
{
    [
        Step {
            ends: 1,
            refusal: overlong(c, fixed_bytes(kind.kind), 1),
        },
        Step {
            ends: 1 + field_bytes(kind.kind),
            refusal: field_refusal(c, code, kind, rest),
        },
    ]
}

/// Appends the steps of the pending values and of the words. After the last token, also appends the
/// steps of the end of the value.
fn add_closing(
    c: &Context,
    kind: KnownKind,
    rest: &[u8],
    steps: &mut Vec<Step>,
) -> Result<(), AllocError>
    ensures { OnOk result
        (steps_of steps.new.items
        ≡ steps_of steps.old.items ++ closing_steps (context_of c.now) kind.kind rest.now) }
{
    let n = 1 + fixed_bytes(kind.kind) + variable_bytes(kind, rest);
    let sized = 1 + sizing_bytes(kind.kind, rest);
    let all = one_more(c.sums, measure_after(kind, rest));
    steps.extend_from_slice(&[
        Step {
            ends: sized,
            refusal: overlong(c, all.pending, n),
        },
        Step {
            ends: sized,
            refusal: words32_refusal(Comparison::Above, position(c), c.head, all.w32),
        },
        Step {
            ends: sized,
            refusal: words64_refusal(Comparison::Above, position(c), c.head, all.w64),
        },
    ])?;
    if all.pending == 0 {
        steps.extend_from_slice(&end_steps(c, n, all))?;
    }
    Ok(())
}

/// Returns the steps of a token of this kind.
fn steps_after(
    alloc: Global,
    c: &Context,
    code: u8,
    kind: KnownKind,
    rest: &[u8],
) -> Result<Vec<Step>, AllocError>
    ensures { IfOk result
        (λ steps. steps_of steps.items ≡ steps_after (context_of c.now) code kind.kind rest.now) }
{
    let mut steps = Vec::from_slice(alloc, &entry_steps(c, code, kind, rest))?;
    add_variable(c, kind, custom_of(first(rest, 3)), rest, &mut steps)?;
    add_closing(c, kind, rest, &mut steps)?;
    Ok(steps)
}

/// Returns the steps of a token.
#[tactic(auto, unfolding(marshal_spec::specs::format::Step::token_steps))]
pub fn token_steps(alloc: Global, c: &Context, token: &[u8]) -> Result<Vec<Step>, AllocError>
    ensures { IfOk result
        (λ steps. steps_of steps.items ≡ token_steps (context_of c.now) token.now) }
{
    let Some(code) = token.first() else {
        return Ok(Vec::new(alloc));
    };
    match kind_of(*code) {
        Ok(kind) => steps_after(alloc, c, *code, KnownKind { kind }, skip(token, 1)),
        Err(fault) => Vec::from_slice(
            alloc,
            &[Step {
                ends: 1,
                refusal: Some(code_refusal(fault, position(c), *code)),
            }],
        ),
    }
}
