//! Blocks whose parts are being visited.

ghost use Rattle.std.specs.Prelude.{◌≡◌, ◌<◌, ◌+◌, ◌^◌, length, slice_get, IfSome};
ghost use Rattle.check_heap.specs.fits.Needs.{needs_in};
ghost use Rattle.text_print.specs.print.PrintLevels.{IsLastEnd};

use crate::leaves::Frame;
use crate::print::ends::end_of;
use check_heap::fits::Needs;

/// A block that is being visited: the words of the fields, the text around the parts, the fields
/// that are parts, and the index of the next part. `outside` is the number of ends outside of the
/// block.
#[derive(Clone, Copy)]
pub struct OpenBlock<'a> {
    pub object: u64,
    pub fields: &'a [u64],
    pub frame: Frame<'a>,
    pub needs: Needs<'a>,
    pub next: u64,
    pub outside: usize,
}

impl OpenBlock<'_> {
    /// Returns the field and the type number of the next part, or `None` if no part is left.
    #[inline(always)]
    pub fn next_need(&self) -> Option<(u64, usize)>
        ensures need { result ≡ slice_get (needs_in self.now.needs) self.now.next }
        ensures more { IfSome result (λ _. self.now.next + 1 < 2 ^ 64) }
    {
        // The match on `needs` tests for the most common case only once.
        match self.needs {
            Needs::Listed(types) => need_at(Needs::Listed(types), self.next),
            needs => need_at(needs, self.next),
        }
    }

    /// Returns the end of the block if the next part of the block is the last part.
    #[inline(always)]
    pub fn last_end(&self) -> Option<u8>
        requires { self.now.next < length (needs_in self.now.needs) }
        ensures { IsLastEnd self.now result }
    {
        if self.needs.len() - self.next > 1 {
            return None;
        }
        Some(end_of(&self.frame))
    }
}

// Returns the field and the type number of part `k`, or `None` if there is no part `k`.
#[inline(always)]
fn need_at(needs: Needs<'_>, k: u64) -> Option<(u64, usize)>
    ensures need { result ≡ slice_get (needs_in needs.entry) k }
    ensures more { IfSome result (λ _. k + 1 < 2 ^ 64) }
{
    if k < needs.len() {
        Some(needs.get(k))
    } else {
        None
    }
}
