//! A stack entry for a block whose parts are not all parsed.

use crate::guess::guess_scanners::{after, between};
use base_data::model::list::List;

/// A block by its number, with the index of the next part, the types of all parts, and the names of
/// the fields, if the fields have names. `ends` is the number of blocks that end with the block.
#[derive(Clone, Copy)]
pub struct GuessedBlock<'a> {
    pub block: u64,
    pub next: usize,
    pub types: &'a [usize],
    pub fields: &'a [List<u8>],
    pub ends: usize,
}

impl<'a> GuessedBlock<'a> {
    /// Returns the rest of the text after the separator and the field name that come before the
    /// next part. Returns `None` if there is no separator.
    #[inline(always)]
    pub fn after_before<'t>(&self, text: &'t [u8]) -> Option<&'t [u8]> {
        let rest = if self.next == 0 { text } else { between(text)? };
        match self.fields.get(self.next) {
            Some(name) => Some(after(rest, name.as_slice().len().saturating_add(3))),
            None => Some(rest),
        }
    }

    /// Returns true if the next part is the last one.
    #[inline(always)]
    pub fn is_at_last(&self) -> bool {
        self.next.saturating_add(1) >= self.types.len()
    }

    /// Returns the block after the next part has begun.
    #[inline(always)]
    pub fn advanced(self) -> GuessedBlock<'a> {
        GuessedBlock {
            block: self.block,
            next: self.next.saturating_add(1),
            types: self.types,
            fields: self.fields,
            ends: self.ends,
        }
    }

    /// Returns the block as the last part of an outer block, with which `ends` blocks end.
    #[inline(always)]
    pub fn within(self, ends: usize) -> GuessedBlock<'a> {
        GuessedBlock {
            block: self.block,
            next: self.next,
            types: self.types,
            fields: self.fields,
            ends: ends.saturating_add(1),
        }
    }
}
