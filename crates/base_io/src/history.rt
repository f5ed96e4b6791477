//! The history of an input, of the files or of an output, which exists only in contracts.

ghost use Rattle.std.specs.Prelude.{◌≡◌, List, [], ◌∷◌, ◌++◌};
ghost use Rattle.std.specs.Borrow.{ftrue};
ghost use Rattle.base_io.specs.History.{Event, event_of, moved, failed, fetched};
ghost use Rattle.base_io.specs.History.{error_of, bytes_of};

use crate::OpenError;
use std::marker::{Model, PhantomData};
use std::mem::size_of;

/// The calls so far, as a model. At run time nothing is stored.
#[derive(Drop)]
pub struct History {
    marker: PhantomData<u8>,
    pub ghost calls: { List Event },
}

// A history takes no memory.
const _: () = prove!(size_of::<History>() == 0);

impl Model for History {
    ghost also_owns = { λ _. ftrue };
}

impl History {
    /// Creates a history without calls.
    pub fn new() -> History
        ensures { result.calls ≡ [] }
    {
        History {
            marker: PhantomData,
        }
    }

    // Appends the event that the numbers and the bytes stand for.
    #[inline(always)]
    fn note(&mut self, _numbers: &[u64], _bytes: &[u8])
        ensures { self.new.calls ≡ self.old.calls ++ event_of _numbers.now _bytes.now ∷ [] }
    {}

    // Appends the event of a call that moved these bytes.
    #[inline(always)]
    fn note_moved(&mut self, room: usize, bytes: &[u8])
        ensures { self.new.calls ≡ self.old.calls ++ moved room bytes.now ∷ [] }
    {
        self.note(&[room as u64], bytes);
    }

    /// Appends a call that moved these bytes. `room` is the length of the buffer, or of the chunk
    /// that was offered.
    #[inline(always)]
    pub fn add_moved(&mut self, room: usize, bytes: &[u8])
        ensures called { self.new.calls ≡ self.old.calls ++ moved room bytes.now ∷ [] }
        ensures bytes { bytes_of self.new.calls ≡ bytes_of self.old.calls ++ bytes.now }
    {
        self.note_moved(room, bytes);
    }

    /// Appends a call that failed.
    #[inline(always)]
    pub fn add_failed(&mut self)
        ensures { self.new.calls ≡ self.old.calls ++ failed ∷ [] }
    {
        self.note(&[], &[]);
    }

    /// Appends a fetch of the file with this name.
    #[inline(always)]
    pub fn add_fetched(&mut self, name: &str, answer: &Result<(), OpenError>)
        ensures { self.new.calls ≡ self.old.calls ++ fetched name.now (error_of answer.now) ∷ [] }
    {
        match answer {
            Ok(_) => self.note(&[0; 2], name.as_bytes()),
            Err(OpenError::Failed) => self.note(&[0; 3], name.as_bytes()),
            Err(OpenError::Missing) => self.note(&[0; 4], name.as_bytes()),
            Err(OpenError::Memory) => self.note(&[0; 5], name.as_bytes()),
        }
    }
}
