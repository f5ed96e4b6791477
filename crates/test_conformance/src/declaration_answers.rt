//! Prints the answers to texts of declarations, and to texts of types over them.

use std::io;
use std::io::ErrorKind;
use types_wellformed::declarations::{DeclFault, fault_text, read_decls, read_type};

// Prints a fault, after the name of the text in which it was found.
fn write_fault(rt: &HostRuntime, found_in: &str, fault: &DeclFault) -> io::Result<()> {
    let Ok(text) = fault_text(rt.alloc(), false, &[], fault) else {
        return Err(ErrorKind::OutOfMemory.into());
    };
    print!(rt; "{found_in}: ")?;
    rt.stdout().write_all(text.as_slice())?;
    println!(rt; "")
}

/// Prints the result of reading a text of declarations.
pub fn answer(rt: &HostRuntime, text: &str) -> io::Result<()> {
    match read_decls(rt.alloc(), text.as_bytes()) {
        Ok(_) => println!(rt; "accepted"),
        Err(fault) => write_fault(rt, "types", &fault),
    }
}

/// Prints the result of reading `TYPE over TEXT`, a type over declarations.
pub fn answer_type(rt: &HostRuntime, question: &str) -> io::Result<()> {
    let Some((ty, text)) = question.split_once(" over ") else {
        return Err(ErrorKind::InvalidInput.into());
    };
    let Ok(decls) = read_decls(rt.alloc(), text.as_bytes()) else {
        return answer(rt, text);
    };
    match read_type(rt.alloc(), decls.as_slice(), ty.as_bytes()) {
        Ok(_) => println!(rt; "accepted"),
        Err(fault) => write_fault(rt, "type", &fault),
    }
}
