//! Parsing of a certificate from its bytes, line by line.

ghost use Rattle.std.specs.Prelude.{◌≡◌, ◌<◌, ◌+◌, ◌^◌, ◌++◌, [], None, length, IfOk, IfErr, OnOk};
ghost use Rattle.std.specs.Prelude.{MatchOption};
ghost use Rattle.cert_format.specs.Coming.{Bytes, nothing, HasKept, HasCome};
ghost use Rattle.cert_format.specs.Format.{IsCertificate, IsStated, text_of};
ghost use Rattle.cert_format.specs.CertificateReading.{IsReading, GoesOnByLine, GoesNowhere};
ghost use Rattle.cert_format.specs.CertificateReading.{HasOneMore, HasNoMore};
ghost use Rattle.cert_format.specs.CertificateReading.{IsFaultOf, IsFaultFrom, IsAt, lines_read};
ghost use Rattle.cert_format.specs.PairRuns.{HasReadMore};
ghost use Rattle.cert_format.specs.declared.section.Section.TheVariants as sections;

use crate::certificate_lines::{head_of, pair_of};
use crate::cuts::until;
use crate::pair_runs::with_pairs;
use crate::section::{CertificatePairs, Section};
use base_data::model::Memory;
use base_data::model::list::List;
use std::alloc::Global;
use std::mem;

/// The entries of a certificate, in order.
pub type Cert = List<Section>;

/// Error of parsing a certificate: the number of the first line outside the format, counted from 1,
/// or out of memory.
#[derive(Clone, Copy, PartialEq, Eq)]
pub enum CertFault {
    Syntax(usize),
    Memory,
}

impl From<Memory> for CertFault {
    ghost use Rattle.std.specs.Prelude.{◌≡◌};
    ghost use Rattle.cert_format.specs.declared.certificate_reader.CertFault.TheVariants as faults;

    ghost from_gives = { λ _ e. e ≡ faults.Memory };

    fn from(_: Memory) -> CertFault {
        CertFault::Memory
    }
}

/// The state after some whole lines: the complete entries, and the open entry if an entry is open.
#[derive(Drop)]
struct CertificateReading {
    whole: List<Section>,
    begun: Option<Section>,
}

/// Returns the state before the first line.
fn nothing_read(alloc: Global) -> CertificateReading
    ensures { result ≡ nothing }
{
    CertificateReading {
        whole: List::new(alloc),
        begun: None,
    }
}

/// Parses a certificate. If the text is outside the format, reports the first line that no
/// certificate has after the lines before it. If all lines are possible, but the last line or entry
/// is not complete, reports the line after the last complete line.
pub fn read_cert(alloc: Global, bytes: &[u8]) -> Result<Cert, CertFault>
    ensures ok { IfOk result (λ all. IsCertificate bytes.now all) }
    ensures err { IfErr result (IsFaultOf bytes.now) }
{
    let (reading, lines, line) = with_lines(alloc, nothing_read(alloc), bytes)?;
    read_all(reading, lines, line)
}

/// Parses the lines that end in the bytes. Returns the new state, the number of parsed lines, and
/// the bytes after the last parsed line. Reports the first line with which no certificate
/// continues.
fn with_lines<'a>(
    alloc: Global,
    reading: CertificateReading,
    text: &'a [u8],
) -> Result<(CertificateReading, usize, &'a [u8]), CertFault>
    requires { IsReading reading }
    ensures ok { IfOk result (λ run. IsAt (text_of (lines_read reading) ++ text.now) run.0
        (length (lines_read reading) + run.1) run.2.now []) }
    ensures err { IfErr result (IsFaultFrom reading text.now) }
{
    let (mut longer, mut lines, begun) = with_run(reading, text)?;
    let (mut line, mut rest) = until(&text[begun..], b'\n');
    while !rest.is_empty() {
        lines += 1;
        match with_line(alloc, longer, line)? {
            Some(next) => longer = next,
            None => return Err(CertFault::Syntax(lines)),
        }
        let behind = &rest[1..];
        let (next, more, taken) = with_run(longer, behind)?;
        longer = next;
        lines += more;
        (line, rest) = until(&behind[taken..], b'\n');
    }
    Ok((longer, lines, line))
}

/// Finishes parsing at the end of the input. Returns the entries. If the last line or entry is not
/// complete, reports the line after the last complete line.
fn read_all(reading: CertificateReading, lines: usize, line: &[u8]) -> Result<Cert, CertFault>
    requires { (bytes : Bytes) × IsAt bytes reading lines line.now [] × (length bytes < 2 ^ 63) }
    ensures ok { (bytes : Bytes) → IsAt bytes reading lines line.now []
        → IfOk result (λ all. IsCertificate bytes all) }
    ensures err { (bytes : Bytes) → IsAt bytes reading lines line.now []
        → IfErr result (IsFaultOf bytes) }
{
    if line.is_empty() && reading.begun.is_none() {
        Ok(reading.whole)
    } else {
        Err(CertFault::Syntax(lines + 1))
    }
}

/// A parser that receives a certificate in chunks. The parser stores the state after the complete
/// lines, the number of complete lines, and the bytes after them. If a complete line is faulty, the
/// parser stores the first line with which no certificate continues.
#[derive(Drop)]
pub struct CertReader {
    alloc: Global,
    reading: CertificateReading,
    lines: usize,
    kept: Vec<u8>,
    fault: Option<usize>,
}

impl CertReader {
    /// Creates a parser that has received no bytes.
    pub fn new(alloc: Global) -> CertReader
        ensures { HasCome result [] }
    {
        CertReader {
            alloc,
            reading: nothing_read(alloc),
            lines: 0,
            kept: Vec::new(alloc),
            fault: None,
        }
    }

    /// Receives the next bytes. If memory runs out, the parser must not be used any more.
    pub fn take(&mut self, chunk: &[u8]) -> Result<(), Memory>
        requires { (bytes : Bytes) × HasCome self.old bytes
            × (length bytes + length chunk.now < 2 ^ 63) }
        ensures { OnOk result ((bytes : Bytes) → HasCome self.old bytes
            → HasCome self.new (bytes ++ chunk.now)) }
    {
        if self.fault.is_some() {
            return Ok(());
        }
        self.kept.extend_from_slice(chunk)?;
        let (_, ended) = until(chunk, b'\n');
        if ended.is_empty() {
            return Ok(());
        }
        self.take_lines()
    }

    /// Parses the lines that are complete.
    fn take_lines(&mut self) -> Result<(), Memory>
        requires none { self.old.fault ≡ None }
        requires kept { (bytes : Bytes) × HasKept self.old.reading self.old.lines
            self.old.kept.items bytes × (length bytes < 2 ^ 63) }
        ensures { OnOk result ((bytes : Bytes)
            → HasKept self.old.reading self.old.lines self.old.kept.items bytes
            → HasCome self.new bytes) }
    {
        let reading = mem::replace(&mut self.reading, nothing_read(self.alloc));
        let text = mem::replace(&mut self.kept, Vec::new(self.alloc));
        match with_lines(self.alloc, reading, text.as_slice()) {
            Ok((reading, lines, line)) => {
                self.kept.extend_from_slice(line)?;
                self.reading = reading;
                self.lines += lines;
                Ok(())
            }
            Err(CertFault::Syntax(line)) => {
                self.fault = Some(self.lines + line);
                Ok(())
            }
            Err(CertFault::Memory) => Err(Memory),
        }
    }

    /// Ends the input. Returns the entries, or the first line outside the format.
    pub fn finish(self) -> Result<Cert, CertFault>
        requires { (bytes : Bytes) × HasCome self bytes × (length bytes < 2 ^ 63) }
        ensures ok { (bytes : Bytes) → HasCome self bytes
            → IfOk result (λ all. IsCertificate bytes all) }
        ensures err { (bytes : Bytes) → HasCome self bytes → IfErr result (IsFaultOf bytes) }
    {
        match self.fault {
            Some(line) => Err(CertFault::Syntax(line)),
            None => read_all(self.reading, self.lines, self.kept.as_slice()),
        }
    }
}

/// Fast path: parses some of the pair lines at the start of the bytes. Returns the new state, the
/// number of parsed lines and the number of parsed bytes.
fn with_run(
    reading: CertificateReading,
    text: &[u8],
) -> Result<(CertificateReading, usize, usize), Memory>
    requires { IsReading reading }
    ensures { IfOk result (λ run. HasReadMore reading text.now run.0 run.1 run.2) }
{
    let CertificateReading { whole, begun } = reading;
    match begun {
        Some(Section::Pairs(pairs)) => {
            let (longer, many, taken) = with_pairs(pairs, text)?;
            let next = CertificateReading {
                whole,
                begun: Some(Section::Pairs(longer)),
            };
            Ok((next, many, taken))
        }
        begun => Ok((CertificateReading { whole, begun }, 0, 0)),
    }
}

/// Parses one more line. Returns `None` if no certificate continues with the line.
fn with_line(
    alloc: Global,
    reading: CertificateReading,
    line: &[u8],
) -> Result<Option<CertificateReading>, Memory>
    requires { IsReading reading }
    ensures { IfOk result (λ next.
        MatchOption next (GoesNowhere reading line.now) (GoesOnByLine reading line.now)) }
{
    let CertificateReading { mut whole, begun } = reading;
    match begun {
        None => match head_of(alloc, line, whole.len() as u64)? {
            Some(section) => Ok(Some(CertificateReading {
                whole,
                begun: Some(section),
            })),
            None => Ok(None),
        },
        Some(section) => {
            if line == b"end".as_slice() {
                whole.push(section)?;
                return Ok(Some(CertificateReading { whole, begun: None }));
            }
            match with_pair(section, line)? {
                Some(longer) => Ok(Some(CertificateReading {
                    whole,
                    begun: Some(longer),
                })),
                None => Ok(None),
            }
        }
    }
}

/// Parses the line of a pair and adds the pair to the entry.
fn with_pair(section: Section, line: &[u8]) -> Result<Option<Section>, Memory>
    requires { IsStated section }
    ensures { IfOk result (λ longer.
        MatchOption longer (HasNoMore section line.now) (HasOneMore section line.now)) }
{
    match section {
        Section::Pairs(pairs) => with_next(pairs, line),
        Section::Mismatch(_) => Ok(None),
        Section::Conflict(_, _) => Ok(None),
    }
}

/// Parses the line of a pair and appends the pair to `pairs`.
fn with_next(mut pairs: CertificatePairs, line: &[u8]) -> Result<Option<Section>, Memory>
    requires { IsStated (sections.Pairs pairs) }
    ensures { IfOk result (λ longer.
        MatchOption longer (HasNoMore (sections.Pairs pairs) line.now)
        (HasOneMore (sections.Pairs pairs) line.now)) }
{
    let Some((object, ty)) = pair_of(line) else {
        return Ok(None);
    };
    if !pairs.is_above(object, ty) {
        return Ok(None);
    }
    pairs.push(object, ty)?;
    Ok(Some(Section::Pairs(pairs)))
}
