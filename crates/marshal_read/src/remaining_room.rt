//! The room that remains for tokens that surely pass, in a few numbers. The check of a token takes
//! one subtraction for each number.

ghost use Rattle.std.specs.Prelude.{◌≡◌, ◌+◌, ◌<◌, ◌≤◌, ◌^◌, true, MatchBool};
ghost use Rattle.std.specs.Option.{ForSome};
ghost use Rattle.marshal_spec.specs.format.Words.{of_object, fields, words32, words64};
ghost use Rattle.marshal_codec.specs.headers.Counting.{IsCountable};

use crate::read_totals::ReadTotals;
use base_data::model::code::Measure;
use base_data::model::header::Head;
use marshal_codec::headers::words_of;

/// The remaining room: data bytes beyond one for each pending value, pending values, words on 32
/// bits and words on 64 bits.
#[derive(Clone, Copy)]
pub struct RemainingRoom {
    pub slack: u64,
    pub pending: u64,
    pub w32: u64,
    pub w64: u64,
    ghost short: { slack + pending < 2 ^ 48 },
}

/// The state of a run of tokens: the pending values, and how far the run's words on 32 bits exceed
/// its words on 64 bits.
#[derive(Clone, Copy)]
pub struct Run {
    pub pending: u64,
    pub extra: u64,
}

/// Returns the number of fields of the object.
#[inline(always)]
fn fields_of(measure: Measure) -> u64
    ensures { result ≡ fields measure }
{
    match measure {
        Measure::Block(size) => size,
        _ => 0,
    }
}

/// Returns true if the header states no number of objects, or states the number `objects` plus the
/// object of this measure.
#[inline(always)]
fn is_count(stated: u64, objects: u64, measure: Option<Measure>) -> bool
    ensures { result ≡ true → 0 < stated → stated ≡ objects + of_object (λ _. 1) measure }
{
    if stated == 0 {
        return true;
    }
    match measure {
        None => stated == objects,
        Some(_) => stated - 1 == objects,
    }
}

impl RemainingRoom {
    ghost use Rattle.marshal_read.specs.declared.read_totals.ReadTotals.{ReadTotals};
    ghost use Rattle.marshal_read.specs.Totals.{AreTotals, context_of};
    ghost use Rattle.marshal_read.specs.Left.{LeavesRoom, SpendsRoom, IsSpent, limit_of, HasPlenty};
    ghost use Rattle.marshal_read.specs.Left.{IsAfter};

    /// Returns the number of words on 32 bits that a header allows. A big header states no words on
    /// 32 bits, and the result for a big header is more than its data can need.
    fn limit32(head: &Head) -> u64
        ensures { result ≡ limit_of head.now }
    {
        if head.big { 1 << 62 } else { head.w32 }
    }

    /// Returns the room that remains at the totals `first`.
    pub fn at(first: &ReadTotals) -> RemainingRoom
        ensures { LeavesRoom first.now 0 first.now result }
    {
        RemainingRoom {
            slack: first.head.length - (first.taken + first.pending),
            pending: first.pending,
            w32: RemainingRoom::limit32(&first.head) - first.w32,
            w64: first.head.w64 - first.w64,
        }
    }

    /// Returns a number of bytes. The room surely suffices for all common tokens that begin in so
    /// many bytes. Returns 0 if the number is small, because a short run is not worth its cost.
    #[inline(always)]
    pub fn plenty(&self, len: usize) -> usize
        ensures plenty { 0 < result → HasPlenty self.now result }
        ensures short { self.now.w32 < 2 ^ 64 }
    {
        let words = if self.w32 < self.w64 {
            self.w32
        } else {
            self.w64
        };
        let least = if words < self.slack {
            words
        } else {
            self.slack
        };
        if len < 256 || least < 1024 {
            return 0;
        }
        (least / 16 - 64) as usize
    }

    /// Returns the room that remains after a run of `n` bytes that spent `spent` words on 64 bits.
    pub fn after(self, n: u64, spent: u64, run: Run) -> RemainingRoom
        requires { (left : RemainingRoom) × IsAfter self left run n spent }
        ensures { (left : RemainingRoom) → IsAfter self left run n spent → result ≡ left }
    {
        RemainingRoom {
            slack: self.slack + self.pending - n - run.pending,
            pending: run.pending,
            w32: self.w32 - (spent + run.extra),
            w64: self.w64 - spent,
        }
    }

    /// Subtracts a token of `n` bytes whose object has this measure. Returns true if the token
    /// fits.
    #[inline(always)]
    pub fn spend(&mut self, n: u64, measure: Option<Measure>) -> bool
        requires open { 0 < self.old.pending }
        requires some { 0 < n }
        requires short { n < 2 ^ 32 }
        requires small { of_object fields measure < 2 ^ 60 }
        requires countable { ForSome measure IsCountable }
        ensures { MatchBool result (SpendsRoom self.old n measure self.new) (self.new ≡ self.old) }
    {
        let Some(measure) = measure else {
            if self.slack < n - 1 {
                return false;
            }
            *self = RemainingRoom {
                slack: self.slack - (n - 1),
                pending: self.pending - 1,
                w32: self.w32,
                w64: self.w64,
            };
            return true;
        };
        let fields = fields_of(measure);
        let (w32, w64) = words_of(measure);
        let need = n - 1 + fields;
        if self.slack < need || self.w32 < w32 || self.w64 < w64 {
            return false;
        }
        *self = RemainingRoom {
            slack: self.slack - need,
            pending: self.pending - 1 + fields,
            w32: self.w32 - w32,
            w64: self.w64 - w64,
        };
        true
    }

    /// If a value is pending, returns true. If no value is pending, returns true only if no room
    /// remains and `is_count` accepts the number of objects.
    #[inline(always)]
    pub fn is_sound(&self, first: &ReadTotals, objects: u64, measure: Option<Measure>) -> bool
        ensures { result ≡ true → self.now.pending ≡ 0
            → IsSpent first.now.head (objects + of_object (λ _. 1) measure) self.now }
    {
        if self.pending > 0 {
            return true;
        }
        if self.slack > 0 || self.w64 > 0 || !first.head.big && self.w32 > 0 {
            return false;
        }
        is_count(first.head.objects, objects, measure)
    }

    /// Returns the totals `n` bytes after the totals `first`, with `objects` objects.
    pub fn position(self, first: &ReadTotals, n: u64, objects: u64) -> ReadTotals
        requires { (position : ReadTotals) × LeavesRoom first.now n position self
            × (objects ≡ position.objects) }
        ensures { (position : ReadTotals) → LeavesRoom first.now n position self
            → objects ≡ position.objects
            → AreTotals result (context_of position) }
    {
        ReadTotals {
            head: first.head,
            start: first.start,
            taken: first.taken + n,
            objects,
            pending: self.pending,
            w32: RemainingRoom::limit32(&first.head) - self.w32,
            w64: first.head.w64 - self.w64,
        }
    }
}

impl Run {
    ghost use Rattle.marshal_read.specs.Left.{StaysPending};

    /// Adds a token whose object has this measure to the run. Returns true if a value is still
    /// pending.
    #[inline(always)]
    pub fn spend(&mut self, measure: Option<Measure>) -> bool
        requires open { 0 < self.old.pending }
        requires short { self.old.pending < 2 ^ 48 }
        requires small { of_object fields measure < 2 ^ 60 }
        requires countable { ForSome measure IsCountable }
        requires more { of_object words64 measure ≤ of_object words32 measure }
        requires room { self.old.extra + of_object words32 measure < 2 ^ 64 }
        ensures { MatchBool result (StaysPending self.old measure self.new) (self.new ≡ self.old) }
    {
        let Some(measure) = measure else {
            if self.pending == 1 {
                return false;
            }
            self.pending -= 1;
            return true;
        };
        let fields = fields_of(measure);
        if self.pending == 1 && fields == 0 {
            return false;
        }
        let (w32, w64) = words_of(measure);
        *self = Run {
            pending: self.pending - 1 + fields,
            extra: self.extra + (w32 - w64),
        };
        true
    }
}
