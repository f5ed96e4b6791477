//! Prints how whole runs end. A run happens in memory, its input arrives in chunks of several
//! sizes, and I/O calls may fail. A question consists of parts that are separated by tabs:
//! settings, the input in hexadecimal digits, the text of `f.ml` after `=` (or `none`), and the
//! arguments.
//!
//! The settings are:
//!
//! - `fetch=N`, `read=N` or `take=N`: call N of this kind fails. Calls are counted from 0.
//! - `put=N`: call N of out fails, and call N of err fails. `put_out=N` and `put_err=N`: call N of
//!   one sink fails. Several numbers are separated by commas.
//! - `out=N` or `err=N`: the sink has room for this number of bytes.
//! - `piece=N`: a read returns at most this number of bytes.
//! - `script=` with hexadecimal digits: there is a file `script` with these bytes.
//! - `file=` with hexadecimal digits, instead of `=`: the text of `f.ml`, if the text has more than
//!   one line.
//! - `word=` with hexadecimal digits: one more argument, after the other arguments.

use base_io::{MemFiles, MemSink, MemSource};
use cli_spec::status::Status;
use session::run;
use std::alloc::Global;
use std::io;
use std::io::{ErrorKind, Write};

/// The inputs of a run.
#[derive(Drop)]
struct RunInputs {
    settings: String,
    input: Vec<u8>,
    file: Option<Vec<u8>>,
    words: Vec<String>,
}

/// Returns the text after `=` of a setting, among settings separated by blanks.
fn setting_in<'a>(settings: &'a str, name: &str) -> Option<&'a str> {
    for setting in settings.split(' ') {
        match setting.split_once('=') {
            Some((key, text)) => {
                if key == name {
                    return Some(text);
                }
            }
            None => {}
        }
    }
    None
}

/// Returns the text after `=` of a setting.
fn setting<'a>(given: &'a RunInputs, name: &str) -> Option<&'a str> {
    setting_in(given.settings.as_str(), name)
}

/// Returns the number of a setting.
fn number(given: &RunInputs, name: &str) -> Option<u64> {
    setting(given, name)?.parse().ok()
}

// Appends the numbers of the calls that must fail, for one kind of call.
fn add_failing(found: &mut Vec<u64>, given: &RunInputs, name: &str) -> io::Result<()> {
    let Some(numbers) = setting(given, name) else {
        return Ok(());
    };
    for number in numbers.split(',') {
        match number.parse::<u64>() {
            Ok(number) => found.push(number)?,
            Err(_) => return Err(ErrorKind::InvalidInput.into()),
        }
    }
    Ok(())
}

// Returns the numbers of the calls that must fail, for one kind of call.
fn failing(alloc: Global, given: &RunInputs, name: &str) -> io::Result<Vec<u64>> {
    let mut found = Vec::new(alloc);
    add_failing(&mut found, given, name)?;
    Ok(found)
}

// Returns the number of bytes for which a sink has room.
fn room(given: &RunInputs, name: &str) -> usize {
    match number(given, name) {
        Some(room) => room as usize,
        None => 20_000,
    }
}

// Returns the bytes that hexadecimal digits encode.
fn decoded(alloc: Global, digits: &str) -> io::Result<Vec<u8>> {
    match hex::decode(alloc, digits) {
        Ok(bytes) => Ok(bytes),
        Err(_) => Err(ErrorKind::InvalidInput.into()),
    }
}

// Returns the files `f.ml` and `script`, if they are given.
fn files_of(alloc: Global, given: &RunInputs) -> io::Result<Vec<(String, Vec<u8>)>> {
    let mut pairs = Vec::new(alloc);
    if let Some(text) = &given.file {
        let name = String::from_str(alloc, "f.ml")?;
        let text = Vec::from_slice(alloc, text.as_slice())?;
        pairs.push((name, text))?;
    }
    if let Some(digits) = setting(given, "file") {
        let name = String::from_str(alloc, "f.ml")?;
        pairs.push((name, decoded(alloc, digits)?))?;
    }
    if let Some(digits) = setting(given, "script") {
        let name = String::from_str(alloc, "script")?;
        pairs.push((name, decoded(alloc, digits)?))?;
    }
    Ok(pairs)
}

// If something was written, appends `before` and the written bytes. If the last written line has no
// line feed, appends ` (cut)` and a line feed, too.
fn write_written(text: &mut Vec<u8>, before: &[u8], written: &[u8]) -> io::Result<()> {
    match written {
        [] => Ok(()),
        [.., last] => {
            text.extend_from_slice(before)?;
            text.extend_from_slice(written)?;
            if *last != b'\n' {
                text.extend_from_slice(b" (cut)\n")?;
            }
            Ok(())
        }
    }
}

// Appends the bytes of the written values in hexadecimal digits, if bytes were written.
fn append_values(alloc: Global, text: &mut Vec<u8>, written: &[u8]) -> io::Result<()> {
    match written {
        [] => Ok(()),
        _ => {
            let digits = hex::encode(alloc, written)?;
            writeln!(text, "values: {digits}")
        }
    }
}

// Returns true if the arguments name a command that writes values.
fn writes_values(words: &[String]) -> bool {
    match words {
        [command, ..] => command.as_str() == "edit" || command.as_str() == "build",
        [] => false,
    }
}

// Appends the number of failed calls of a kind, if the number is not 0.
fn write_faults(text: &mut Vec<u8>, kind: &str, faults: u64) -> io::Result<()> {
    if faults > 0 {
        writeln!(text, "failed to {kind}: {faults}")?;
    }
    Ok(())
}

/// The environment of a run.
#[derive(Drop)]
struct World {
    input: MemSource,
    files: MemFiles,
    out: MemSink,
    err: MemSink,
}

// Returns the input. A read of the input returns at most `chunk` bytes.
fn input_of(alloc: Global, given: &RunInputs, chunk: usize) -> io::Result<MemSource> {
    let bytes = Vec::from_slice(alloc, given.input.as_slice())?;
    let takes = failing(alloc, given, "take")?;
    if chunk == 0 {
        return Err(ErrorKind::InvalidInput.into());
    }
    Ok(MemSource::new(bytes, chunk, takes))
}

// Returns the files, with the calls on them that fail.
fn opener_of(alloc: Global, given: &RunInputs) -> io::Result<MemFiles> {
    let pairs = files_of(alloc, given)?;
    let fetches = failing(alloc, given, "fetch")?;
    let reads = failing(alloc, given, "read")?;
    if !MemFiles::have_no_name_twice(pairs.as_slice()) {
        return Err(ErrorKind::InvalidInput.into());
    }
    Ok(MemFiles::new(alloc, pairs, fetches, reads))
}

// Returns a sink with its room. The calls that fail are the calls of `put` and the calls of the
// sink's own setting.
fn sink_of(alloc: Global, given: &RunInputs, name: &str, own: &str) -> io::Result<MemSink> {
    let mut writes = failing(alloc, given, "put")?;
    add_failing(&mut writes, given, own)?;
    match MemSink::new(alloc, room(given, name), writes) {
        Ok(sink) => Ok(sink),
        Err(_) => Err(ErrorKind::OutOfMemory.into()),
    }
}

fn world_of(alloc: Global, given: &RunInputs, chunk: usize) -> io::Result<World> {
    Ok(World {
        input: input_of(alloc, given, chunk)?,
        files: opener_of(alloc, given)?,
        out: sink_of(alloc, given, "out", "put_out")?,
        err: sink_of(alloc, given, "err", "put_err")?,
    })
}

fn run_environment(alloc: Global, words: &[String], world: &mut World) -> Status {
    run(
        alloc,
        words,
        &mut world.input,
        &mut world.files,
        &mut world.out,
        &mut world.err,
    )
}

// Returns the output of a run, the status of the run, and the numbers of failed calls.
fn text_of(alloc: Global, words: &[String], world: &World, status: Status) -> io::Result<Vec<u8>> {
    let mut text = Vec::new(alloc);
    if writes_values(words) {
        append_values(alloc, &mut text, world.out.written())?;
    } else {
        write_written(&mut text, b"", world.out.written())?;
    }
    write_written(&mut text, b"err: ", world.err.written())?;
    writeln!(text, "status {}", status.code())?;
    write_faults(&mut text, "fetch", world.files.open_faults())?;
    write_faults(&mut text, "read", world.files.read_faults())?;
    write_faults(&mut text, "take", world.input.faults())?;
    Ok(text)
}

/// Returns what a run writes to out and to err, the status of the run, and the numbers of failed
/// calls. The input arrives in chunks of at most `chunk` bytes.
fn ending(alloc: Global, given: &RunInputs, chunk: usize) -> io::Result<Vec<u8>> {
    let mut world = world_of(alloc, given, chunk)?;
    let status = run_environment(alloc, given.words.as_slice(), &mut world);
    text_of(alloc, given.words.as_slice(), &world, status)
}

// Returns the text of the file after `=`, or `None` if the question has no file.
fn file_of(alloc: Global, text: &str) -> io::Result<Option<Vec<u8>>> {
    match text.strip_prefix("=") {
        Some(text) => Ok(Some(Vec::from_slice(alloc, text.as_bytes())?)),
        None => Ok(None),
    }
}

// Returns the argument that hexadecimal digits encode.
fn decoded_word(alloc: Global, digits: &str) -> io::Result<String> {
    match String::from_utf8(decoded(alloc, digits)?) {
        Ok(word) => Ok(word),
        Err(_) => Err(ErrorKind::InvalidInput.into()),
    }
}

// Parses the inputs of a run from a question.
fn given_by(alloc: Global, question: &str) -> io::Result<RunInputs> {
    let mut parts = question.split('\t');
    let (Some(settings), Some(digits), Some(file)) = (parts.next(), parts.next(), parts.next())
    else {
        return Err(ErrorKind::InvalidInput.into());
    };
    let input = decoded(alloc, digits)?;
    let mut words = Vec::new(alloc);
    for word in parts {
        words.push(String::from_str(alloc, word)?)?;
    }
    if let Some(digits) = setting_in(settings, "word") {
        words.push(decoded_word(alloc, digits)?)?;
    }
    Ok(RunInputs {
        settings: String::from_str(alloc, settings)?,
        input,
        file: file_of(alloc, file)?,
        words,
    })
}

/// Prints how a run ends. If no chunk size is set, also prints where the run ends differently with
/// smaller chunks.
pub fn answer(rt: &HostRuntime, question: &str) -> io::Result<()> {
    let alloc = rt.alloc();
    let given = given_by(alloc, question)?;
    if let Some(chunk) = number(&given, "piece") {
        let text = ending(alloc, &given, chunk as usize)?;
        return rt.stdout().write_all(text.as_slice());
    }
    let whole = ending(alloc, &given, 4096)?;
    rt.stdout().write_all(whole.as_slice())?;
    for chunk in [1, 2, 3, 7, 1000] {
        let other = ending(alloc, &given, chunk)?;
        if other.as_slice() != whole.as_slice() {
            println!(rt; "but in pieces of {chunk}:")?;
            rt.stdout().write_all(other.as_slice())?;
        }
    }
    Ok(())
}
