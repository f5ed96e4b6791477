//! The words that a header states for the objects that are not yet read.

ghost use Rattle.std.specs.Prelude.{◌≡◌, ◌≤◌, IfSome};
ghost use Rattle.std.specs.Bool.{OnTrue};
ghost use Rattle.marshal_codec.specs.headers.Counting.{IsCountable};
ghost use Rattle.check_stream.specs.checker.CheckerState.{IsSpent, SpendsWords, stated32};

use base_data::model::code::Measure;
use base_data::model::header::Head;
use marshal_codec::headers::words_of;

/// The words, on 32-bit and on 64-bit platforms, that the header states for the remaining objects.
#[derive(Clone, Copy)]
pub struct Words {
    pub w32: u64,
    pub w64: u64,
}

impl Words {
    /// Returns all words that a header states. A big header states no number of words for 32-bit
    /// platforms.
    pub fn stated(head: &Head) -> Words
        ensures words32 { result.w32 ≡ stated32 head.now }
        ensures words64 { result.w64 ≡ head.now.w64 }
    {
        Words {
            w32: if head.big { u64::MAX } else { head.w32 },
            w64: head.w64,
        }
    }

    /// Returns the words that remain after an object. If the object needs more words than remain,
    /// returns `None`.
    #[inline(always)]
    pub fn after(self, measure: Measure) -> Option<Words>
        requires { IsCountable measure }
        ensures { IfSome result (λ left. SpendsWords self measure left) }
    {
        let (w32, w64) = words_of(measure);
        if self.w32 < w32 || self.w64 < w64 {
            return None;
        }
        Some(Words {
            w32: self.w32 - w32,
            w64: self.w64 - w64,
        })
    }

    /// Subtracts the words of an object. If the object needs more words than remain, returns false.
    #[inline(always)]
    pub fn spend(&mut self, measure: Measure) -> bool
        requires { IsCountable measure }
        ensures { OnTrue result (SpendsWords self.old measure self.new) }
    {
        match self.after(measure) {
            Some(left) => {
                *self = left;
                true
            }
            None => false,
        }
    }

    /// Returns true if the bytes from `start` to `at`, the words and `objects` objects are all the
    /// data, words and objects that the header states.
    pub fn is_spent(self, head: &Head, start: usize, at: usize, objects: usize) -> bool
        requires { start ≤ at }
        ensures { OnTrue result (IsSpent head.now start at self objects) }
    {
        (at - start) as u64 == head.length
            && (head.big || self.w32 == 0)
            && self.w64 == 0
            && (head.objects == 0 || head.objects == objects as u64)
    }
}
