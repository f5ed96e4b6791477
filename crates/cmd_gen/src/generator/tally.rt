//! A sink that counts and sums bytes.

ghost use Rattle.std.specs.Prelude.{◌≡◌, ◌↔◌, ◌≤◌, [], length, take, min, sum, is_err, IsErr, IfOk};
ghost use Rattle.base_io.specs.IoFaults.{count_after};
ghost use Rattle.base_io.specs.Sink.{AppendsPrefix};
ghost use Rattle.cmd_gen.specs.generator.Tally.{tally_state, HasNoRoom};

use base_io::{Failed, History, Sink};
use std::marker::Model;

/// The maximum number of bytes that one call accepts.
const MOST: usize = 65536;

/// A sink that stores only the number and the sum of the written bytes. If the number or the sum
/// would not fit in 64 bits, the call fails.
#[derive(Drop)]
pub struct Tally {
    count: u64,
    total: u64,
    faults: u64,
    history: History,
}

impl Model for Tally {
    ghost use Rattle.std.specs.Prelude.{◌≡◌, length, sum};
    ghost use Rattle.base_io.specs.History.{bytes_of};
    ghost use Rattle.cmd_gen.specs.generator.Tally.{Known};

    ghost Value = { Known };

    ghost view = { λ t. record { written = bytes_of t.history.calls; faults = t.faults } };

    ghost invariant = { λ t. (t.count ≡ length (bytes_of t.history.calls))
        × (t.total ≡ sum (bytes_of t.history.calls)) };
}

impl Tally {
    /// Creates a sink that has received no bytes.
    pub fn new() -> Tally
        ensures { result ≡ record { written = []; faults = 0 } }
    {
        Tally {
            count: 0,
            total: 0,
            faults: 0,
            history: History::new(),
        }
    }

    /// Returns the number of bytes received.
    pub fn count(&self) -> u64
        ensures { result ≡ length self.now.written }
    {
        self.count
    }

    /// Returns the sum of the bytes received.
    pub fn sum(&self) -> u64
        ensures { result ≡ sum self.now.written }
    {
        self.total
    }
}

impl Sink for Tally {
    ghost use Rattle.cmd_gen.specs.generator.Tally.{tally_state};

    ghost state = { tally_state };

    fn write(&mut self, chunk: &[u8]) -> Result<usize, Failed>
        ensures appends { AppendsPrefix (tally_state self.old) (tally_state self.new) result
            chunk.now }

        // A call accepts at most `MOST` bytes of the chunk. The call fails if the number or the sum
        // of all bytes would not fit in 64 bits.
        ensures amount { IfOk result (λ n. n ≡ min (length chunk.now) MOST) }
        ensures fails { IsErr result
            ↔ HasNoRoom self.old (take (min (length chunk.now) MOST) chunk.now) }
        ensures counted { self.new.faults ≡ count_after self.old.faults (is_err result) }
    {
        let prefix = &chunk[..chunk.len().min(MOST)];
        match (
            self.count.checked_add(prefix.len() as u64),
            self.total.checked_add(sum_of(prefix)),
        ) {
            (Some(count), Some(total)) => {
                self.count = count;
                self.total = total;
                self.history.add_moved(chunk.len(), prefix);
                Ok(prefix.len())
            }
            _ => {
                self.faults = self.faults.saturating_add(1);
                Err(Failed)
            }
        }
    }

    fn knows_bytes(&self) {}
}

/// Returns the sum of at most `MOST` bytes.
fn sum_of(bytes: &[u8]) -> u64
    requires { length bytes.now ≤ MOST }
    ensures { result ≡ sum bytes.now }
{
    let mut sum = 0;
    for byte in bytes {
        sum += u64::from(*byte);
    }
    sum
}
