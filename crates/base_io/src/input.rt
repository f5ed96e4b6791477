//! Standard input, which may be closed.

ghost use Rattle.std.specs.Prelude.{◌≡◌, None, IsErr};
ghost use Rattle.std.specs.Io.{ReadsAtMost};
ghost use Rattle.std.specs.Io.KnownBytes.{ReadConsumes};
ghost use Rattle.base_io.specs.declared.input.MaybeClosed.TheVariants.{Closed};

use std::io;
use std::io::{Error, ErrorKind, Read};

/// A reader that may be closed. Every call on a closed reader fails.
#[derive(Drop)]
pub enum MaybeClosed<R> {
    Open(R),
    Closed,
}

impl<R: Read> Read for MaybeClosed<R> {
    fn read(&mut self, buf: &mut [u8]) -> io::Result<usize>
        ensures bound { ReadsAtMost result buf.new }
        ensures bytes { ReadConsumes None None result buf.new }
        ensures closed { self.old ≡ Closed → IsErr result }
    {
        match self {
            MaybeClosed::Open(reader) => reader.read(buf),
            MaybeClosed::Closed => Err(Error::from(ErrorKind::NotConnected)),
        }
    }
}
