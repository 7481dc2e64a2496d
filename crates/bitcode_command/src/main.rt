//! Shows, checks and converts what `bitcode` encodes, by a schema file.
#![tactic(auto)]

mod calls;
mod column;
mod column_text;
mod columns;
mod entries;
mod failure;
mod fault;
mod files;
mod first_bytes;
mod format;
mod formats;
mod from_json;
mod from_leaf;
mod json_depth;
mod json_leaf;
mod json_parts;
mod json_text;
mod leaf;
mod maps;
mod node;
mod options;
mod packing;
mod picture;
mod place;
mod schema_file;
mod sealed_parts;
mod survey;
mod table;
mod to_json;
mod words;

use crate::calls::{Action, by_schema};
use crate::failure::Failure;
use clap::ArgMatches;
use std::env;
use std::io::IsTerminal;
use std::process::ExitCode;
use std::rt::Files;

// What a call of this name does, if it has a schema file.
fn action_of(name: &str) -> Option<Action> {
    match name {
        "columns" => Some(Action::Show),
        "decode" => Some(Action::Decode),
        "encode" => Some(Action::Encode),
        "check" => Some(Action::Check),
        _ => None,
    }
}

fn call(
    rt: &(impl AllocGlobal + Files + Input + Print + Eprint),
    matches: &ArgMatches<'_>,
    shows: bool,
) -> Result<(), Failure> {
    let Some((name, words)) = matches.subcommand() else {
        return Ok(());
    };
    if let Some(action) = action_of(name) {
        return by_schema(rt, words, shows, action);
    }
    match name {
        "seal" => calls::seal(rt, words, shows),
        "open" => calls::open(rt, words, shows),
        _ => Ok(()),
    }
}

// Answers the words with the call that they name.
fn answer(
    rt: &(impl AllocGlobal + Files + Input + Print + Eprint),
    matches: &ArgMatches<'_>,
    shows: bool,
) -> anyhow::Result<ExitCode> {
    match call(rt, matches, shows) {
        Ok(()) => Ok(ExitCode::SUCCESS),
        Err(failure) => {
            eprintln!(rt; "bitcode: {failure}")?;
            Ok(ExitCode::from(failure.status()))
        }
    }
}

// Answers the words that the program is given.
fn run(
    rt: &(impl AllocGlobal + Files + Input + Print + Eprint),
    given: &[String],
    shows: bool,
) -> anyhow::Result<ExitCode> {
    match words::command(rt.alloc())?.try_get_matches_from(given) {
        Ok(matches) => answer(rt, &matches, shows),
        Err(error) => {
            error.print(rt)?;
            Ok(ExitCode::from(error.exit_code() as u8))
        }
    }
}

fn main(rt: HostRuntime) -> anyhow::Result<ExitCode> {
    let given: Vec<String> = env::args(&rt)?.collect(rt.alloc())?;
    let shows = rt.stderr().is_terminal();
    run(&rt, &given, shows)
}
