//! The totals before a token, and the checks that compare the token with the totals.

ghost use Rattle.std.specs.Prelude.{◌≡◌, ◌≤◌, ◌<◌, ◌+◌, ◌-◌, ◌*◌, ◌^◌, [], length, take};
ghost use Rattle.std.specs.Prelude.{slice_index, None, OnOk, IfOk, false, nat_lt, Option, ℕ, ◌==◌};
ghost use Rattle.std.specs.Prelude.{if◌then◌else◌};
ghost use Rattle.std.specs.Option.{ForSome};

use crate::token_sizes::{measure_at, variable_len};
use crate::unread::{Unread, pass};
use base_data::model::bytes::skip;
use base_data::model::code::{CodeFault, CodeKind, CustomKind, Measure};
use base_data::model::header::Head;
use base_data::model::refusal::{ReadRefusal, WordSum};
use marshal_codec::codes::{KnownKind, code_kind};
use marshal_codec::headers::words_of;
use marshal_codec::token::{
    Summary, TokenFault, TokenStep, custom_at, decode, field_len, fixed_len, measure_of, native_len,
};

/// The header, and sums over the tokens so far: bytes, objects, pending values and words.
#[derive(Clone, Copy)]
pub struct ReadTotals {
    pub head: Head,
    pub start: u64,
    pub taken: u64,
    pub objects: u64,
    pub pending: u64,
    pub w32: u64,
    pub w64: u64,
    ghost begins: { start ≤ 32 },
    ghost short: { head.length < 2 ^ 48 },
    ghost room: { taken + pending ≤ head.length },
    ghost few: { objects ≤ taken },
    ghost words32: { w32 ≤ 3 * taken + pending },
    ghost words64: { w64 ≤ 3 * taken + pending },
    ghost within32: { head.big ≡ false → w32 ≤ head.w32 },
    ghost within64: { w64 ≤ head.w64 },
}

/// Returns the prefix of the bytes that is data of the value.
#[inline(always)]
pub fn data_in<'a>(first: &ReadTotals, bytes: &'a [u8]) -> &'a [u8]
    ensures { result.now ≡ take (first.now.head.length - first.now.taken) bytes.now }
{
    let left = (first.head.length - first.taken) as usize;
    if bytes.len() < left {
        bytes
    } else {
        &bytes[..left]
    }
}

impl ReadTotals {
    ghost use Rattle.marshal_spec.specs.format.Code.{custom_of, native_bytes};
    ghost use Rattle.marshal_spec.specs.format.Raw.{field_bytes, fixed_bytes, variable_bytes};
    ghost use Rattle.marshal_spec.specs.format.Raw.{sizing_bytes};
    ghost use Rattle.marshal_spec.specs.format.Words.{of_object, fields as fields_of, words32};
    ghost use Rattle.marshal_spec.specs.format.Words.{words64};
    ghost use Rattle.marshal_spec.specs.format.Step.{overlong as overlong_refusal};
    ghost use Rattle.marshal_spec.specs.format.Step.{field_refusal as refusal_of_fields};
    ghost use Rattle.marshal_spec.specs.format.Step.{shared_refusal as refusal_of_shared};
    ghost use Rattle.marshal_spec.specs.format.Step.{code_refusal as refusal_of_code, native_steps};
    ghost use Rattle.marshal_spec.specs.format.Step.{variable_steps, entry_steps, closing_steps};
    ghost use Rattle.marshal_spec.specs.format.Step.{words32_refusal, words64_refusal, end_steps};
    ghost use Rattle.marshal_spec.specs.format.Step.{or_else};
    ghost use Rattle.marshal_spec.specs.format.Step.{position};
    ghost use Rattle.marshal_spec.specs.format.Raw.{raw_length};
    ghost use Rattle.marshal_codec.specs.token.Summary.{IsFair, summary_measure};
    ghost use Rattle.marshal_codec.specs.token.TokenFault.{refusal_of};
    ghost use Rattle.marshal_codec.specs.token.RemainingSteps.{closing, remaining_steps};
    ghost use Rattle.marshal_codec.specs.token.RemainingSteps.{reference_refusal as refusal_of_reference};
    ghost use Rattle.marshal_read.specs.Totals.{AreTotals, AreFew, IsNext, context_of, sums, moved};
    ghost use Rattle.marshal_read.specs.Totals.{after_kind, IsSized};
    ghost use Rattle.marshal_codec.specs.headers.Counting.{IsCountable};
    ghost use Rattle.marshal_read.specs.Progress.{answered, and_then, progress, of_refusal};

    /// Returns the offset in bytes of the token's code, from the header's first byte.
    fn at(&self) -> u64
        ensures { result ≡ self.now.start + self.now.taken }
    {
        self.start + self.taken
    }

    /// Returns the refusal if the token needs more than the data bytes after the token's first `n`
    /// bytes.
    fn overlong(&self, need: u128, n: u64) -> Option<ReadRefusal>
        requires { self.now.taken + n ≤ self.now.head.length }
        ensures refusal { result ≡ overlong_refusal (context_of self.now) need n }
        ensures room { result ≡ None → self.now.taken + n + need ≤ self.now.head.length }
    {
        let left = self.head.length - (self.taken + n);
        if u128::from(left) < need {
            Some(ReadRefusal::Overlong(self.at(), need, left))
        } else {
            None
        }
    }

    /// Returns the refusal of a reference, if the reference has a fault.
    fn shared_refusal(&self, offset: u64) -> Option<ReadRefusal>
        ensures { result ≡ refusal_of_shared (context_of self.now) offset }
    {
        if offset == 0 || self.objects < offset {
            Some(ReadRefusal::BadShared(self.at(), offset, self.objects))
        } else if self.head.objects == 0 {
            Some(ReadRefusal::NoTable(self.at()))
        } else {
            None
        }
    }

    /// Returns the refusal of a code that begins no token.
    fn code_refusal(&self, fault: CodeFault, code: u8) -> ReadRefusal
        ensures { result ≡ refusal_of_code fault (position (context_of self.now)) code }
    {
        match fault {
            CodeFault::BadCode => ReadRefusal::BadCode(self.at(), code),
            CodeFault::PointerCode => ReadRefusal::PointerCode(self.at(), code),
            CodeFault::CustomLen => ReadRefusal::OtherCustom(self.at(), code),
        }
    }

    /// Returns the refusal of a token whose own bytes have this fault.
    fn fault_refusal(&self, fault: TokenFault, code: u8) -> ReadRefusal
        ensures { result ≡ refusal_of fault (position (context_of self.now)) code }
    {
        match fault {
            TokenFault::Code(fault) => self.code_refusal(fault, code),
            TokenFault::Integer(value) => ReadRefusal::IntRange(self.at(), value),
            TokenFault::Tag(tag) => ReadRefusal::BadTag(self.at(), tag),
            TokenFault::Empty => ReadRefusal::ZeroArray(self.at()),
            TokenFault::Identifier => ReadRefusal::OtherCustom(self.at(), code),
            TokenFault::Native(kind) => ReadRefusal::BadNative(self.at(), kind),
        }
    }

    /// Performs the steps of a `Nativeint` after its identifier.
    fn native(&self, rest: &[u8]) -> Result<u64, Unread>
        requires room { self.now.taken + 4 ≤ self.now.head.length }
        requires known { 3 ≤ length rest.now }
        ensures steps { answered result
            ≡ progress (length rest.now + 1)
            (native_steps (context_of self.now) (slice_index rest.now 3)) }
        ensures len { IfOk result
            (λ len. (len ≡ 1 + native_bytes (slice_index rest.now 3))
            × (self.now.taken + (4 + len) ≤ self.now.head.length)) }
        ensures sized { OnOk result (4 ≤ length rest.now) }
    {
        pass(self.overlong(1, 4))?;
        if rest.len() < 4 {
            return Err(Unread::NeedMore);
        }
        let kind = rest[3];
        let len = native_len(kind);
        if len == 0 {
            return Err(Unread::Refused(ReadRefusal::BadNative(self.at(), kind)));
        }
        pass(self.overlong(u128::from(len), 5))?;
        Ok(1 + len)
    }

    /// Performs the steps that the fixed bytes of the kind and the token's fields decide. The
    /// fields have no fault, because the token is incomplete.
    fn fields(&self, code: u8, kind: KnownKind, rest: &[u8]) -> Result<(), Unread>
        requires open { 0 < self.now.pending }
        requires sound { self.now.taken + (1 + fixed_bytes kind.kind) ≤ self.now.head.length
            → field_bytes kind.kind ≤ length rest.now
            → refusal_of_fields (context_of self.now) code kind.kind rest.now ≡ None }
        ensures steps { answered result ≡ progress (length rest.now + 1)
            (entry_steps (context_of self.now) code kind.kind rest.now) }
        ensures whole { OnOk result (field_bytes kind.kind ≤ length rest.now) }
        ensures room { OnOk result
            (self.now.taken + (1 + fixed_bytes kind.kind) ≤ self.now.head.length) }
    {
        pass(self.overlong(u128::from(fixed_len(kind.kind)), 1))?;
        if rest.len() < field_len(kind.kind) {
            return Err(Unread::NeedMore);
        }
        Ok(())
    }

    /// Performs the steps that the bytes of the token's contents decide. Returns the number of
    /// these bytes.
    fn variable(&self, kind: KnownKind, rest: &[u8]) -> Result<u64, Unread>
        requires whole { field_bytes kind.kind ≤ length rest.now }
        requires room { self.now.taken + (1 + fixed_bytes kind.kind) ≤ self.now.head.length }
        ensures steps { answered result ≡ progress (length rest.now + 1)
            (variable_steps (context_of self.now) kind.kind (custom_of (take 3 rest.now))
            rest.now) }
        ensures len { IfOk result (λ len. len ≡ variable_bytes kind.kind rest.now) }
        ensures room { IfOk result
            (λ len. self.now.taken + (1 + fixed_bytes kind.kind + len) ≤ self.now.head.length) }
        ensures sized { OnOk result (sizing_bytes kind.kind rest.now ≤ length rest.now) }
    {
        if matches!(kind.kind, CodeKind::Custom(_)) && custom_at(rest) == Some(CustomKind::Native) {
            return self.native(rest);
        }
        let len = variable_len(kind, rest);
        pass(self.overlong(len, 1 + fixed_len(kind.kind)))?;
        Ok(len as u64)
    }

    /// Returns the number of pending values after a token.
    fn pending_after(&self, measure: Option<Measure>) -> u64
        requires open { 0 < self.now.pending }
        requires small { of_object fields_of measure < 2 ^ 60 }
        ensures { result ≡ self.now.pending - 1 + of_object fields_of measure }
    {
        match measure {
            Some(Measure::Block(size)) => self.pending - 1 + size,
            _ => self.pending - 1,
        }
    }

    /// Returns the number of objects after a token: the number before the token, plus one if the
    /// token makes an object.
    fn objects_after(&self, measure: Option<Measure>) -> u64
        ensures { result ≡ self.now.objects + of_object (λ _. 1) measure }
    {
        match measure {
            None => self.objects,
            Some(_) => self.objects + 1,
        }
    }

    /// Returns the sums of words on 32 and on 64 bits after a token whose object has this measure.
    fn words_after(&self, measure: Option<Measure>) -> (u64, u64)
        requires { ForSome measure IsCountable }
        ensures sum32 { result.0 ≡ self.now.w32 + of_object words32 measure }
        ensures sum64 { result.1 ≡ self.now.w64 + of_object words64 measure }
    {
        match measure {
            None => (self.w32, self.w64),
            Some(measure) => {
                let (w32, w64) = words_of(measure);
                (self.w32 + w32, self.w64 + w64)
            }
        }
    }

    /// Returns the refusal if a sum of words exceeds the number that the header states.
    fn exceeded(&self, w32: u64, w64: u64) -> Option<ReadRefusal>
        ensures within32 { result ≡ None → self.now.head.big ≡ false → w32 ≤ self.now.head.w32 }
        ensures within64 { result ≡ None → w64 ≤ self.now.head.w64 }
        ensures refusal { let c = context_of self.now in
            result
            ≡ or_else (words32_refusal nat_lt (position c) c.head w32)
            (words64_refusal nat_lt (position c) c.head w64) }
    {
        if !self.head.big && self.head.w32 < w32 {
            return Some(ReadRefusal::SizeMismatch(self.at(), WordSum::W32, self.head.w32, w32));
        }
        if self.head.w64 < w64 {
            return Some(ReadRefusal::SizeMismatch(self.at(), WordSum::W64, self.head.w64, w64));
        }
        None
    }

    /// Returns the refusal if the totals of the whole value differ from what the header states.
    fn differs(&self, n: u64, objects: u64, w32: u64, w64: u64) -> Option<ReadRefusal>
        requires { self.now.taken + n ≤ self.now.head.length }
        ensures { (m : ℕ) → n ≤ m
            → of_refusal result
            ≡ progress m (end_steps (context_of self.now) n (sums objects 0 w32 w64)) }
    {
        let at = self.at() + n;
        let left = self.head.length - (self.taken + n);
        if left > 0 {
            return Some(ReadRefusal::LengthMismatch(at, left));
        }
        if !self.head.big && self.head.w32 != w32 {
            return Some(ReadRefusal::SizeMismatch(at, WordSum::W32, self.head.w32, w32));
        }
        if self.head.w64 != w64 {
            return Some(ReadRefusal::SizeMismatch(at, WordSum::W64, self.head.w64, w64));
        }
        if self.head.objects != 0 && self.head.objects != objects {
            return Some(ReadRefusal::CountMismatch(at, self.head.objects, objects));
        }
        None
    }

    /// If the token is the last token and `there` is at least `n`, performs the steps of the whole
    /// value.
    fn end(
        &self,
        there: u64,
        n: u64,
        pending: u64,
        objects: u64,
        w32: u64,
        w64: u64,
    ) -> Result<(), Unread>
        requires { self.now.taken + n ≤ self.now.head.length }
        ensures { answered result
            ≡ progress there
            (if pending == 0
            then end_steps (context_of self.now) n (sums objects pending w32 w64)
            else []) }
    {
        if pending > 0 {
            return Ok(());
        }
        if there < n {
            return Err(Unread::NeedMore);
        }
        pass(self.differs(n, objects, w32, w64))
    }

    /// Performs the steps of a token of `n` bytes whose object has this measure. After the last
    /// token, also performs the steps of the whole value. `there` is the number of bytes that have
    /// arrived. Returns the totals after the token.
    fn finish(&self, measure: Option<Measure>, n: u64, there: u64) -> Result<ReadTotals, Unread>
        requires open { 0 < self.now.pending }
        requires some { 0 < n }
        requires room { self.now.taken + n ≤ self.now.head.length }
        requires small { of_object fields_of measure < 2 ^ 60 }
        requires countable { ForSome measure IsCountable }
        requires few32 { AreFew words32 measure n }
        requires few64 { AreFew words64 measure n }
        ensures steps { answered result
            ≡ progress there (closing (context_of self.now) there n measure) }
        ensures next { IfOk result
            (λ next. AreTotals next (moved (context_of self.now) n measure)) }
        ensures len { IfOk result (λ next. next.taken ≡ self.now.taken + n) }
    {
        let pending = self.pending_after(measure);
        pass(self.overlong(u128::from(pending), n))?;
        let (w32, w64) = self.words_after(measure);
        pass(self.exceeded(w32, w64))?;
        let objects = self.objects_after(measure);
        self.end(there, n, pending, objects, w32, w64)?;
        Ok(ReadTotals {
            head: self.head,
            start: self.start,
            taken: self.taken + n,
            objects,
            pending,
            w32,
            w64,
        })
    }

    /// Performs the steps that need the token's size. After the last token, also performs the steps
    /// of the whole value. Returns the totals after the token.
    #[tactic(auto, using(crate::proofs::ReaderSizeLemmas::measure_small))]
    fn close(&self, kind: KnownKind, rest: &[u8], len: u64) -> Result<ReadTotals, Unread>
        requires open { 0 < self.now.pending }
        requires whole { field_bytes kind.kind ≤ length rest.now }
        requires sized { sizing_bytes kind.kind rest.now ≤ length rest.now }
        requires len { len ≡ variable_bytes kind.kind rest.now }
        requires room { self.now.taken + (1 + fixed_bytes kind.kind + len) ≤ self.now.head.length }
        ensures steps { answered result
            ≡ progress (length rest.now + 1)
            (closing_steps (context_of self.now) kind.kind rest.now) }
        ensures next { IfOk result
            (λ next. AreTotals next (after_kind (context_of self.now) kind.kind rest.now)) }
        ensures len { IfOk result
            (λ next. next.taken ≡ self.now.taken + (1 + fixed_bytes kind.kind + len)) }
    {
        let n = 1 + fixed_len(kind.kind) + len;
        let measure = measure_at(kind, rest);
        self.finish(measure, n, rest.len() as u64 + 1)
    }

    /// Performs the steps of an incomplete token of this kind. If all decided steps pass, returns
    /// the totals after the token.
    fn steps(&self, code: u8, kind: KnownKind, rest: &[u8]) -> Result<ReadTotals, Unread>
        requires open { 0 < self.now.pending }
        requires sound { self.now.taken + (1 + fixed_bytes kind.kind) ≤ self.now.head.length
            → field_bytes kind.kind ≤ length rest.now
            → refusal_of_fields (context_of self.now) code kind.kind rest.now ≡ None }
        ensures steps { answered result
            ≡ and_then
            (progress (length rest.now + 1)
            (entry_steps (context_of self.now) code kind.kind rest.now))
            (and_then
            (progress (length rest.now + 1)
            (variable_steps (context_of self.now) kind.kind (custom_of (take 3 rest.now))
            rest.now))
            (progress (length rest.now + 1)
            (closing_steps (context_of self.now) kind.kind rest.now))) }
        ensures next { IfOk result
            (λ next. AreTotals next (after_kind (context_of self.now) kind.kind rest.now)) }
        ensures len { IfOk result
            (λ next. next.taken
            ≡ self.now.taken + (1 + fixed_bytes kind.kind + variable_bytes kind.kind rest.now)) }
    {
        self.fields(code, kind, rest)?;
        let len = self.variable(kind, rest)?;
        self.close(kind, rest, len)
    }

    /// Checks a token that is incomplete, or only partly in the data. If no step fails, fails with
    /// `NeedMore`.
    fn part(&self, bytes: &[u8]) -> Result<ReadTotals, Unread>
        requires open { 0 < self.now.pending }
        requires some { 0 < length bytes.now }
        requires part { let there = take (self.now.head.length - self.now.taken) bytes.now in
            length there < raw_length there }
        ensures { IsNext (context_of self.now) bytes.now result }
    {
        let code = bytes[0];
        match code_kind(code) {
            Err(fault) => Err(Unread::Refused(self.code_refusal(fault, code))),
            Ok(kind) => {
                let next = self.steps(code, KnownKind { kind }, skip(bytes, 1))?;
                if (bytes.len() as u64) < next.taken - self.taken {
                    return Err(Unread::NeedMore);
                }
                Ok(next)
            }
        }
    }

    /// Returns the refusal of a reference that leads to no object. For another token, returns
    /// `None`.
    fn reference_refusal(&self, summary: Summary) -> Option<ReadRefusal>
        ensures { result ≡ refusal_of_reference (context_of self.now) summary }
    {
        match summary {
            Summary::Shared(offset) => self.shared_refusal(offset),
            _ => None,
        }
    }

    /// Performs the steps of a complete token of `n` bytes that the token's own bytes do not
    /// decide. Returns the totals after the token.
    fn complete(&self, summary: Summary, n: u64) -> Result<ReadTotals, Unread>
        requires open { 0 < self.now.pending }
        requires fair { IsFair summary }
        requires sized { IsSized (context_of self.now) (summary_measure summary) n }
        ensures steps { answered result
            ≡ progress n (remaining_steps (context_of self.now) summary n) }
        ensures next { IfOk result
            (λ next. AreTotals next (moved (context_of self.now) n (summary_measure summary))) }
    {
        pass(self.reference_refusal(summary))?;
        self.finish(measure_of(summary), n, n)
    }

    /// Checks the next token on all bytes that have arrived. If the token is complete and passes,
    /// returns the totals after the token. Fails with `NeedMore` if the token is incomplete, and
    /// with `Refused` if a step fails.
    pub fn judge(&self, bytes: &[u8]) -> Result<ReadTotals, Unread>
        requires open { 0 < self.now.pending }
        requires some { 0 < length bytes.now }
        ensures { IsNext (context_of self.now) bytes.now result }
    {
        match decode(data_in(self, bytes)) {
            TokenStep::Token(summary, n) => self.complete(summary, n as u64),
            TokenStep::More => self.part(bytes),
            TokenStep::Fault(fault) => { Err(Unread::Refused(self.fault_refusal(fault, bytes[0]))) }
        }
    }
}
