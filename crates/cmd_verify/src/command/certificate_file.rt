//! Reads the file CERT while the bytes of CERT arrive.

ghost use Rattle.std.specs.Prelude.{ℕ, ◌≡◌, ◌<◌, ◌+◌, ◌^◌, ◌++◌, [], length, List as Seq};
ghost use Rattle.std.specs.Prelude.{OnOk};
ghost use Rattle.base_data.specs.model.Bytes.{AreBytes};
ghost use Rattle.cli_spec.specs.Outcome.{opened};
ghost use Rattle.base_io.specs.StreamState.{as_source, change};
ghost use Rattle.run_spec.specs.runs.Given.{chunk_limit};
ghost use Rattle.cert_format.specs.Coming.{HasCome};
ghost use Rattle.cmd_verify.specs.command.CertificateFile.{IsCertificateExit, GivesCertificate};
ghost use Rattle.cmd_verify.specs.command.CertificateFile.{all_of};
ghost use Rattle.cmd_verify.specs.command.CertificateFile.{ComesWhole};
ghost use Rattle.cmd_verify.specs.command.CertificateFile.{TakesCertificate, FindsCertificateIn};

use base_data::model::Memory;
use base_io::{OpenError, Opener};
use cert_format::{Cert, CertFault, CertReader};
use cli_errors::exit_constructors::unopened_file;
use cli_spec::exit::Exit;
use run_loop::work::{LENGTH_LIMIT, new_buffer};
use std::alloc::Global;

/// Returns the exit reason for a CERT that is refused.
fn certificate_exit(fault: CertFault) -> Exit
    ensures { IsCertificateExit fault result }
{
    match fault {
        CertFault::Syntax(line) => Exit::Certificate(line),
        CertFault::Memory => Exit::Memory,
    }
}

/// Passes the next chunk to the certificate reader.
fn forward(reader: &mut CertReader, chunk: &[u8]) -> Result<(), Memory>
    requires { (bytes : Seq ℕ) × HasCome reader.old bytes
        × (length bytes + length chunk.now < 2 ^ 63) }
    ensures come { OnOk result ((bytes : Seq ℕ) → HasCome reader.old bytes
        → HasCome reader.new (bytes ++ chunk.now)) }
    ensures are_bytes { AreBytes chunk.now }
{
    reader.take(chunk)
}

// Passes the bytes of CERT to the reader, up to the end, an error or 2^48 bytes. Bytes after a
// refused line are also read, because a read error takes precedence over a refused line.
fn take_chunks<O: Opener>(
    files: &mut O,
    reader: &mut CertReader,
    buffer: &mut [u8],
) -> Result<(), Exit>
    requires begun { HasCome reader.old [] }
    requires room { length buffer.old ≡ chunk_limit }
    ensures taken { ComesWhole
        (change (as_source (O.state files.old)) (as_source (O.state files.new))) reader.new
        result }
    ensures frame { O.state files.new ≡ record (O.state files.old) {
      left = (O.state files.new).left;
      calls = (O.state files.new).calls;
    } }
{
    let mut taken = 0;
    while taken < LENGTH_LIMIT {
        let Ok(n) = files.take(buffer) else {
            return Err(Exit::ReadFault);
        };
        if n == 0 {
            return Ok(());
        }
        let Ok(()) = forward(reader, &buffer[..n]) else {
            return Err(Exit::Memory);
        };
        taken += n;
    }
    Err(Exit::TooLong)
}

// Returns the certificate entries of a CERT that was read to the end, or the exit reason.
fn read_end(reader: CertReader) -> Result<Cert, Exit>
    requires { (bytes : Seq ℕ) × HasCome reader bytes × (length bytes < 2 ^ 63) }
    ensures { (name bytes : Seq ℕ) → HasCome reader bytes
        → GivesCertificate name (opened (all_of bytes)) result }
{
    match reader.finish() {
        Ok(sections) => Ok(sections),
        Err(fault) => Err(certificate_exit(fault)),
    }
}

// Reads the file that was fetched last as a CERT. Returns the certificate entries, or the exit
// reason.
fn read_fetched<O: Opener>(alloc: Global, files: &mut O) -> Result<Cert, Exit>
    ensures taken { TakesCertificate
        (change (as_source (O.state files.old)) (as_source (O.state files.new))) result }
    ensures frame { O.state files.new ≡ record (O.state files.old) {
      left = (O.state files.new).left;
      calls = (O.state files.new).calls;
    } }
{
    let Ok(mut buffer) = new_buffer(alloc) else {
        return Err(Exit::Memory);
    };
    let mut reader = CertReader::new(alloc);
    match take_chunks(files, &mut reader, &mut buffer) {
        Ok(()) => read_end(reader),
        Err(exit) => Err(exit),
    }
}

/// Fetches and reads the file `name` as a CERT. Returns the certificate entries, or the exit
/// reason.
pub fn find_certificate<O: Opener>(alloc: Global, files: &mut O, name: &str) -> Result<Cert, Exit>
    ensures { FindsCertificateIn (change (O.state files.old) (O.state files.new)) name.now result }
{
    match files.fetch(name) {
        Ok(()) => read_fetched(alloc, files),
        Err(OpenError::Missing) => Err(unopened_file(alloc, name)),
        Err(OpenError::Failed) => Err(unopened_file(alloc, name)),
        Err(OpenError::Memory) => Err(Exit::Memory),
    }
}
