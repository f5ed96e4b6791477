//! The command `verify`: reads the files and verifies each value by its certificate entry. The
//! contract states that the run satisfies `Account`.

ghost use Rattle.std.specs.Prelude.{List, ℕ};
ghost use Rattle.cli_spec.specs.Outcome.{Asks, own, verify as verify_of};
ghost use Rattle.base_io.specs.StreamState.{FilesState, change};
ghost use Rattle.run_spec.specs.runs.Account.{Account};
ghost use Rattle.run_spec.specs.runs.Call.{call};
ghost use Rattle.run_loop.specs.work.Reported.{HasAccount};
ghost use Rattle.cmd_verify.specs.command.VerifyRequest.{AsksToVerify};
ghost use Rattle.cmd_verify.specs.command.VerifyProgress.{on_certificates_after, certified_after};

use crate::command::certificate_file::find_certificate;
use crate::command::verified_values::Certified;
use base_io::{Opener, Sink, Source};
use cert_format::Section;
use cli_errors::exit_line::report_exit;
use cli_spec::read_options::ReadOptions;
use cli_spec::status::Status;
use opt_skip_only::skip::{Over, SkipCommand};
use opt_skip_only::skip_spec::laws::ByArguments;
use run_loop::work::run_reported;
use run_types::{Requested, find_type};
use std::alloc::Global;

// Verifies the values of the input at the requested type by the certificate entries.
fn verify_values<S: Source, K: Sink, E: Sink>(
    alloc: Global,
    requested: &Requested,
    sections: &[Section],
    reading: ReadOptions,
    input: &mut S,
    out: &mut K,
    err: &mut E,
) -> Status
    ensures { HasAccount on_certificates_after (certified_after requested.now sections.now reading)
        (change (S.state input.old) (S.state input.new))
        (change (K.state out.old) (K.state out.new)) (change (E.state err.old) (E.state err.new))
        result }
{
    let work = Certified::new(alloc, requested, sections, reading.limit);
    let over = Over {
        bytes: reading.skip,
        copied: false,
    };
    let mut skip_command = SkipCommand::<ByArguments, _>::new(work, over);
    run_reported(alloc, &mut skip_command, input, out, err)
}

// Reads CERT, and verifies the values of the input at the requested type.
fn verify_by<S: Source, O: Opener, K: Sink, E: Sink>(
    alloc: Global,
    requested: &Requested,
    certificate: &str,
    reading: ReadOptions,
    input: &mut S,
    files: &mut O,
    out: &mut K,
    err: &mut E,
) -> Status
    ensures { (arguments : List (List ℕ)) (before : FilesState)
        → AsksToVerify arguments requested.now certificate.now reading
        (change before (O.state files.old))
        → Account on_certificates_after arguments
        (call (change (S.state input.old) (S.state input.new))
        (change before (O.state files.new)) (change (K.state out.old) (K.state out.new))
        (change (E.state err.old) (E.state err.new)) result) }
{
    match find_certificate(alloc, files, certificate) {
        Ok(sections) => verify_values(
            alloc,
            requested,
            sections.as_slice(),
            reading,
            input,
            out,
            err,
        ),
        Err(exit) => report_exit(alloc, err, &exit),
    }
}

// Reads CERT, and verifies the values of the input at the type that FILE and TYPE denote.
fn verify_over<S: Source, O: Opener, K: Sink, E: Sink>(
    alloc: Global,
    requested: Requested,
    certificate: &str,
    reading: ReadOptions,
    input: &mut S,
    files: &mut O,
    out: &mut K,
    err: &mut E,
) -> Status
    ensures { (arguments : List (List ℕ)) (before : FilesState)
        → AsksToVerify arguments requested certificate.now reading
        (change before (O.state files.old))
        → Account on_certificates_after arguments
        (call (change (S.state input.old) (S.state input.new))
        (change before (O.state files.new)) (change (K.state out.old) (K.state out.new))
        (change (E.state err.old) (E.state err.new)) result) }
{
    verify_by(
        alloc,
        &requested,
        certificate,
        reading,
        input,
        files,
        out,
        err,
    )
}

/// Reads FILE and TYPE, and CERT after FILE, and verifies the values of the input. Returns the exit
/// status.
pub fn verify<S: Source, O: Opener, K: Sink, E: Sink>(
    alloc: Global,
    file: &str,
    type_text: &str,
    certificate: &str,
    lines: bool,
    reading: ReadOptions,
    input: &mut S,
    files: &mut O,
    out: &mut K,
    err: &mut E,
) -> Status
    ensures { (arguments : List (List ℕ))
        → Asks arguments (own (verify_of file.now type_text.now certificate.now lines reading))
        → Account on_certificates_after arguments
        (call (change (S.state input.old) (S.state input.new))
        (change (O.state files.old) (O.state files.new))
        (change (K.state out.old) (K.state out.new))
        (change (E.state err.old) (E.state err.new)) result) }
{
    match find_type(alloc, files, file, type_text, lines, false) {
        Ok(requested) => verify_over(
            alloc,
            requested,
            certificate,
            reading,
            input,
            files,
            out,
            err,
        ),
        Err(exit) => report_exit(alloc, err, &exit),
    }
}
