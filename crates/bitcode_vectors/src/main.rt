//! Runs the stored rows: values whose bytes are known from the Rust crate, and inputs with their values or refusals. By
//! the words `column KIND COUNT` it reads one column from standard input instead.
#![tactic(auto)]

use crate::column::{Answer, Request};
use bitcode::{Reason, error};
use std::env::FillError;
use std::io;
use std::io::{ErrorKind, Input, Read};
use std::process::ExitCode;
use std::rt::Env;

mod column;
mod report;
mod rows;

/// No word that the program takes is longer.
const LONGEST_WORD: usize = 32;

/// What the words of the program ask for.
#[derive(Clone, Copy)]
enum Task {
    Rows,
    Column(Request),
    Misuse,
}

/// The word at a place; none where no word stands there, or one that is too long to be taken.
fn word<'a>(rt: &impl Env, place: usize, buffer: &'a mut [u8]) -> Option<&'a [u8]> {
    let length = rt.arg(place, buffer).ok()?;
    Some(&buffer[..length])
}

/// Whether there is a word at a place, however long it is.
fn has_word(rt: &impl Env, place: usize) -> bool {
    !matches!(rt.arg(place, &mut []), Err(FillError::NotPresent))
}

/// What three words behind the program's name ask for.
fn three_words(rt: &impl Env) -> Option<Request> {
    let mut command = [0; LONGEST_WORD];
    let mut kind = [0; LONGEST_WORD];
    let mut count = [0; LONGEST_WORD];
    Request::of(&[
        word(rt, 1, &mut command)?,
        word(rt, 2, &mut kind)?,
        word(rt, 3, &mut count)?,
    ])
}

/// The rows without words, and a column for three.
fn asked(rt: &impl Env) -> Task {
    if !has_word(rt, 1) {
        return Task::Rows;
    }
    match three_words(rt) {
        Some(request) if !has_word(rt, 4) => Task::Column(request),
        _ => Task::Misuse,
    }
}

/// Reads standard input to its end, and from that the column of the request.
fn read_and_answer(rt: &(impl AllocGlobal + Input), request: Request) -> Answer {
    let mut input = Vec::new(rt.alloc());
    match rt.reader().read_to_end(&mut input) {
        Ok(_) => request.answer(rt.alloc(), &input),
        Err(failure) if failure.kind() == ErrorKind::OutOfMemory => {
            Answer::Refused(error(Reason::OutOfMemory))
        }
        Err(_) => Answer::Misuse,
    }
}

/// Prints what the command came to, and answers how the program ends.
fn print_answer(rt: &(impl Print + Eprint), answer: &Answer) -> io::Result<ExitCode> {
    match answer {
        Answer::Misuse => rt.eprintln(answer)?,
        _ => rt.println(answer)?,
    }
    Ok(ExitCode::from(answer.status()))
}

fn run(rt: &(impl Env + AllocGlobal + Input + Print + Eprint)) -> io::Result<ExitCode> {
    match asked(rt) {
        Task::Rows => {
            let all_ok = report::print_rows(rt, rt.alloc())?;
            Ok(if all_ok {
                ExitCode::SUCCESS
            } else {
                ExitCode::FAILURE
            })
        }
        Task::Column(request) => print_answer(rt, &read_and_answer(rt, request)),
        Task::Misuse => print_answer(rt, &Answer::Misuse),
    }
}

fn main(rt: HostRuntime) -> ExitCode {
    run(&rt).unwrap_or(ExitCode::from(2))
}
