//! Prints what `run` prints for values that small programs wrote (`values/`), at types over the
//! declarations of these programs.

use crate::streams;
use std::io;
use std::io::ErrorKind;

/// Prints what `run` prints for `NAME at TYPE`: for the stream `NAME.stream`, over the declarations
/// in `NAME.types`.
pub fn answer(rt: &HostRuntime, question: &str) -> io::Result<()> {
    let Some((name, ty)) = question.split_once(" at ") else {
        return Err(ErrorKind::InvalidInput.into());
    };
    let file = format!(in rt.alloc(); "{name}.types")?;
    streams::write_answer(rt, file.as_str(), name, ty)
}
