//! A test program that compares results of the crates and of whole runs with stored answers.
//!
//! The program reads questions from standard input, one in each line, and prints each question with
//! its answer. The files `stdin` and `stdout` of the crate store the questions and the answers;
//! `README.md` says where the answers come from. The kinds of questions are:
//!
//! - `stream`, `value`: what `run` prints for streams that OCaml wrote.
//! - `prefixes`: the result of reading each prefix of some bytes.
//! - `again`: the bytes written for values that were read.
//! - `decls`, `type`, `table`: texts of declarations and types, and the table of a type.
//! - `steps`: the steps of a check.
//! - `run`: a whole run in memory with its files, its input and the calls that fail.
//!
//! Promises: nothing by contract; the comparison with the stored answers is the test. If
//! `test_oracles` gives another result for a prefix, the answer says so.
//!
//! Leaves out: tests of single functions (`test_units`) and the scripts that run the comparison
//! (`tools`). No crate depends on the program.
#![tactic(auto)]

mod check_steps;
mod declaration_answers;
mod prefix_answers;
mod result_text;
mod rewrites;
mod streams;
mod table_rows;
mod tables;
mod whole_runs;
mod written;
mod written_values;

use std::io;
use std::io::ErrorKind;

// Prints the answer to a question.
fn answer(rt: &HostRuntime, question: &str) -> io::Result<()> {
    let Some((kind, rest)) = question.split_once(' ') else {
        return Err(ErrorKind::InvalidInput.into());
    };
    match kind {
        "stream" => streams::answer(rt, rest),
        "value" => written_values::answer(rt, rest),
        "again" => rewrites::answer(rt, rest),
        "prefixes" => prefix_answers::answer(rt, rest),
        "decls" => declaration_answers::answer(rt, rest),
        "type" => declaration_answers::answer_type(rt, rest),
        "table" => tables::answer(rt, rest),
        "steps" => check_steps::answer(rt, rest),
        "run" => whole_runs::answer(rt, rest),
        _ => Err(ErrorKind::InvalidInput.into()),
    }
}

fn main(rt: HostRuntime) -> io::Result<()> {
    for line in rt.stdin().lines(rt.alloc()) {
        let question = line?;
        println!(rt; "{question}")?;
        answer(&rt, question.as_str())?;
    }
    Ok(())
}
