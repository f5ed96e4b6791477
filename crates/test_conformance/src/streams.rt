//! Prints what `run` prints for streams in the folder, which OCaml wrote.

use base_io::{DiskFiles, StdSink, StdSource};
use cli_spec::status::Status;
use session::run;
use std::fs::File;
use std::io;
use std::io::ErrorKind;

/// Checks the values of a stream at a type over the declarations of a file, with the I/O adapters
/// of the program. Output to out goes to standard output, and output to err is appended to `known`.
fn check(
    rt: &HostRuntime,
    file: &str,
    stream: &str,
    ty: &str,
    known: &mut Vec<u8>,
) -> io::Result<Status> {
    let alloc = rt.alloc();
    let words = [
        String::from_str(alloc, "check")?,
        String::from_str(alloc, file)?,
        String::from_str(alloc, ty)?,
    ];
    let name = format!(in alloc; "{stream}.stream")?;
    let mut input = StdSource::new(File::open(rt, name.as_str())?);
    let mut files = DiskFiles::new(alloc, rt);
    let mut out = StdSink::new(rt.stdout());
    let mut err = StdSink::new(known);
    Ok(run(
        alloc,
        words.as_slice(),
        &mut input,
        &mut files,
        &mut out,
        &mut err,
    ))
}

/// Prints what `run` writes to out and to err for a stream at a type over the declarations of a
/// file. Also prints the status of the run.
pub fn write_answer(rt: &HostRuntime, file: &str, stream: &str, ty: &str) -> io::Result<()> {
    let mut known = Vec::new(rt.alloc());
    let status = check(rt, file, stream, ty, &mut known)?;
    if !known.is_empty() {
        print!(rt; "err: ")?;
        rt.stdout().write_all(known.as_slice())?;
    }
    println!(rt; "status {}", status.code())
}

/// Prints what `run` prints for `NAME at TYPE`, over no declarations.
pub fn answer(rt: &HostRuntime, question: &str) -> io::Result<()> {
    let Some((stream, ty)) = question.split_once(" at ") else {
        return Err(ErrorKind::InvalidInput.into());
    };
    write_answer(rt, "empty.ml", stream, ty)
}
