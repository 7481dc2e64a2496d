//! The calls of the command.
use crate::column::Column;
use crate::failure::Failure;
use crate::fault::Fault;
use crate::files::{read_bytes, text_of, write_bytes};
use crate::format::Format;
use crate::from_json::from_json;
use crate::json_text::parse;
use crate::node::Types;
use crate::picture::picture;
use crate::schema_file::read_schema;
use crate::sealed_parts::{Part, bare_part, sealed_parts};
use crate::table::{table, table_json};
use crate::to_json::to_json;
use bitcode_sealed::bytes::seal_bytes;
use bitcode_sealed::label::Label;
use bitcode_untyped::value::Value;
use clap::ArgMatches;
use json::Scratch;
use std::alloc::{AllocError, Global};
use std::rt::Files;

// The types of the schema file.
fn types_of(
    rt: &(impl AllocGlobal + Files + Input + Eprint),
    words: &ArgMatches<'_>,
) -> Result<Types, Failure> {
    let path = words.get_str("schema").unwrap_or("");
    let bytes = read_bytes(rt, Some(path), false)?;
    read_types(rt.alloc(), path, &bytes)
}

// The types that the bytes of a schema file declare.
fn read_types(alloc: Global, path: &str, bytes: &[u8]) -> Result<Types, Failure> {
    match schema_of(alloc, bytes) {
        Ok(types) => Ok(types),
        Err(fault) => Err(Failure::of_schema(alloc, path, fault)),
    }
}

// The same, without the name of the file.
fn schema_of(alloc: Global, bytes: &[u8]) -> Result<Types, Fault> {
    let text = text_of(alloc, bytes)?;
    read_schema(alloc, text)
}

// The format of the types.
fn format_of(
    alloc: Global,
    words: &ArgMatches<'_>,
    types: &Types,
    second: bool,
) -> Result<Format, Failure> {
    match Format::new(alloc, types, second) {
        Ok(format) => Ok(format),
        Err(fault) => {
            let path = words.get_str("schema").unwrap_or("");
            Err(Failure::of_schema(alloc, path, fault))
        }
    }
}

// The values in the file.
fn parts_of<'a>(
    alloc: Global,
    words: &ArgMatches<'_>,
    bytes: &'a [u8],
) -> Result<Vec<Part<'a>>, Failure> {
    let many = words.get_flag("many");
    if many || words.get_flag("sealed") {
        sealed_parts(alloc, bytes, many)
    } else {
        bare_part(alloc, bytes)
    }
}

fn limit_of(words: &ArgMatches<'_>) -> usize {
    words.get_one::<usize>("limit").unwrap_or(0)
}

// The types of a schema file, and their format.
#[derive(Clone, Copy)]
struct Typed<'a> {
    types: &'a Types,
    format: &'a Format,
}

/// What a call with a schema file does.
#[derive(Clone, Copy)]
pub enum Action {
    /// Shows the columns of the file.
    Show,
    /// Writes values as JSON, each in a line.
    Decode,
    /// Encodes a value that is given as JSON.
    Encode,
    /// Tells in a line whether the file has a value of the type.
    Check,
}

/// A call with a schema file.
pub fn by_schema(
    rt: &(impl AllocGlobal + Files + Input + Print + Eprint),
    words: &ArgMatches<'_>,
    shows: bool,
    action: Action,
) -> Result<(), Failure> {
    let types = types_of(rt, words)?;
    by_types(rt, words, &types, shows, action)
}

// The same by the types of the schema file.
fn by_types(
    rt: &(impl AllocGlobal + Files + Input + Print + Eprint),
    words: &ArgMatches<'_>,
    types: &Types,
    shows: bool,
    action: Action,
) -> Result<(), Failure> {
    let second = match action {
        Action::Show => false,
        _ => words.get_flag("second"),
    };
    let format = format_of(rt.alloc(), words, types, second)?;
    let typed = Typed {
        types,
        format: &format,
    };
    on_file(rt, words, typed, shows, action)
}

// The same with the bytes of the file.
fn on_file(
    rt: &(impl AllocGlobal + Files + Input + Print + Eprint),
    words: &ArgMatches<'_>,
    typed: Typed<'_>,
    shows: bool,
    action: Action,
) -> Result<(), Failure> {
    let bytes = read_bytes(rt, words.get_str("file"), shows)?;
    match action {
        Action::Show => show(rt, words, typed.format, &bytes),
        Action::Decode => decode(rt, words, typed, &bytes),
        Action::Encode => encode(rt, words, typed, &bytes),
        Action::Check => check(rt, words, typed.format, &bytes),
    }
}

// Tells of the seal on standard output, if there is one.
fn print_seal(rt: &(impl AllocGlobal + Print), part: &Part<'_>) -> Result<(), Failure> {
    if let Some(line) = part.line(rt.alloc())? {
        println!(rt; "{line}")?;
    }
    Ok(())
}

// The same on standard error.
fn eprint_seal(rt: &(impl AllocGlobal + Eprint), part: &Part<'_>) -> Result<(), Failure> {
    if let Some(line) = part.line(rt.alloc())? {
        eprintln!(rt; "{line}")?;
    }
    Ok(())
}

// Writes values as JSON, each in a line.
fn decode(
    rt: &(impl AllocGlobal + Files + Print + Eprint),
    words: &ArgMatches<'_>,
    typed: Typed<'_>,
    bytes: &[u8],
) -> Result<(), Failure> {
    let parts = parts_of(rt.alloc(), words, bytes)?;
    decode_parts(rt, words, typed, &parts)
}

// The same of the values in the file.
fn decode_parts(
    rt: &(impl AllocGlobal + Files + Print + Eprint),
    words: &ArgMatches<'_>,
    typed: Typed<'_>,
    parts: &[Part<'_>],
) -> Result<(), Failure> {
    let lines = lines_of(rt, typed, parts, limit_of(words))?;
    write_bytes(rt, words.get_str("output"), &lines)
}

// The lines of the values.
fn lines_of(
    rt: &(impl AllocGlobal + Eprint),
    typed: Typed<'_>,
    parts: &[Part<'_>],
    limit: usize,
) -> Result<Vec<u8>, Failure> {
    let mut lines = Vec::new(rt.alloc());
    for part in parts {
        eprint_seal(rt, part)?;
        lines = decode_part(rt.alloc(), typed, part.bytes, limit, lines)?;
    }
    Ok(lines)
}

// Puts the line of a value behind others.
fn decode_part(
    alloc: Global,
    typed: Typed<'_>,
    bytes: &[u8],
    limit: usize,
    lines: Vec<u8>,
) -> Result<Vec<u8>, Failure> {
    let value = typed.format.decode(alloc, bytes, limit)?;
    push_line(alloc, typed.types, &value, lines)
}

fn push_line(
    alloc: Global,
    types: &Types,
    value: &Value,
    lines: Vec<u8>,
) -> Result<Vec<u8>, Failure> {
    let mut lines = to_json(alloc, types, value, lines)?;
    lines.push(b'\n')?;
    Ok(lines)
}

// Encodes a value that is given as JSON.
fn encode(
    rt: &(impl AllocGlobal + Files + Print),
    words: &ArgMatches<'_>,
    typed: Typed<'_>,
    bytes: &[u8],
) -> Result<(), Failure> {
    let text = text_of(rt.alloc(), bytes)?;
    let bytes = encode_text(rt.alloc(), typed, text)?;
    write_bytes(rt, words.get_str("output"), &bytes)
}

// The bytes of the value that is given as JSON.
fn encode_text(alloc: Global, typed: Typed<'_>, text: &str) -> Result<Vec<u8>, Failure> {
    let value = value_of(alloc, typed, text)?;
    typed.format.encode(alloc, &value)
}

// The value that is given as JSON.
fn value_of(alloc: Global, typed: Typed<'_>, text: &str) -> Result<Value, Fault> {
    let mut scratch = Scratch::new(alloc);
    value_in(alloc, typed, text, &mut scratch)
}

// The same, with room for the texts of the JSON.
fn value_in<'a>(
    alloc: Global,
    typed: Typed<'_>,
    text: &'a str,
    scratch: &'a mut Scratch,
) -> Result<Value, Fault> {
    let json = parse(alloc, text, scratch)?;
    from_json(alloc, typed.types, &json, typed.format.is_second())
}

// Tells in a line whether the file has a value of the type.
fn check(
    rt: &(impl AllocGlobal + Print),
    words: &ArgMatches<'_>,
    format: &Format,
    bytes: &[u8],
) -> Result<(), Failure> {
    let parts = parts_of(rt.alloc(), words, bytes)?;
    check_parts(rt, words, format, &parts)?;
    print_accepted(rt, bytes.len())
}

// Tells that so many bytes are accepted.
fn print_accepted(rt: &impl Print, count: usize) -> Result<(), Failure> {
    let unit = if count == 1 { "byte" } else { "bytes" };
    println!(rt; "ok: {count} {unit}")?;
    Ok(())
}

// Accepts the values, and tells of the seal of each before it.
fn check_parts(
    rt: &(impl AllocGlobal + Print),
    words: &ArgMatches<'_>,
    format: &Format,
    parts: &[Part<'_>],
) -> Result<(), Failure> {
    let strict = words.get_flag("strict");
    for part in parts {
        print_seal(rt, part)?;
        format.check(rt.alloc(), part.bytes, limit_of(words), strict)?;
    }
    Ok(())
}

// Shows the columns of the file.
fn show(
    rt: &(impl AllocGlobal + Files + Print),
    words: &ArgMatches<'_>,
    format: &Format,
    bytes: &[u8],
) -> Result<(), Failure> {
    let parts = parts_of(rt.alloc(), words, bytes)?;
    show_parts(rt, words, format, &parts)
}

// Shows the columns of the values.
fn show_parts(
    rt: &(impl AllocGlobal + Files + Print),
    words: &ArgMatches<'_>,
    format: &Format,
    parts: &[Part<'_>],
) -> Result<(), Failure> {
    if parts.len() > 1 && words.get_str("svg").is_some() {
        return Err(Failure::of_words(rt.alloc(), "`--svg` writes a picture of one value"));
    }
    for part in parts {
        let found = format.columns(rt.alloc(), part.bytes)?;
        show_part(rt, words, part, &found)?;
    }
    Ok(())
}

// Shows the columns of a value, and writes their picture before that if one is wanted.
fn show_part(
    rt: &(impl AllocGlobal + Files + Print),
    words: &ArgMatches<'_>,
    part: &Part<'_>,
    found: &[Column],
) -> Result<(), Failure> {
    if let Some(path) = words.get_str("svg") {
        write_picture(rt, path, found)?;
    }
    if words.get_flag("json") {
        print_json(rt, found)
    } else {
        print_seal(rt, part)?;
        print_table(rt, found)
    }
}

// Writes the picture of the columns to a file.
fn write_picture(
    rt: &(impl AllocGlobal + Files + Print),
    path: &str,
    found: &[Column],
) -> Result<(), Failure> {
    let picture = picture(rt.alloc(), found)?;
    write_bytes(rt, Some(path), picture.as_bytes())
}

// Writes the columns as JSON.
fn print_json(rt: &(impl AllocGlobal + Files + Print), found: &[Column]) -> Result<(), Failure> {
    let json = table_json(rt.alloc(), found)?;
    write_bytes(rt, None, &json)
}

// Writes the columns as a table.
fn print_table(rt: &(impl AllocGlobal + Files + Print), found: &[Column]) -> Result<(), Failure> {
    let table = table(rt.alloc(), found)?;
    write_bytes(rt, None, table.as_bytes())
}

// The number of a kind, in decimal or behind `0x` in hexadecimal digits.
fn kind_of(text: &str) -> Option<u32> {
    match text.strip_prefix("0x") {
        Some(digits) => u32::from_str_radix(digits, 16).ok(),
        None => text.parse().ok(),
    }
}

/// Puts a header and a checksum around the bytes.
pub fn seal(
    rt: &(impl AllocGlobal + Files + Input + Print + Eprint),
    words: &ArgMatches<'_>,
    shows: bool,
) -> Result<(), Failure> {
    let Some(kind) = kind_of(words.get_str("kind").unwrap_or("")) else {
        return Err(Failure::of_words(rt.alloc(), "expected `--kind` and a number below 2^32"));
    };
    let version = words.get_one::<u16>("version").unwrap_or(0);
    let bytes = read_bytes(rt, words.get_str("file"), shows)?;
    write_sealed(rt, words, Label { kind, version }, &bytes)
}

// Writes the bytes with their header and checksum.
fn write_sealed(
    rt: &(impl AllocGlobal + Files + Print),
    words: &ArgMatches<'_>,
    label: Label,
    bytes: &[u8],
) -> Result<(), Failure> {
    let out = sealed(rt.alloc(), label, bytes)?;
    write_bytes(rt, words.get_str("output"), &out)
}

// The bytes with their header and checksum.
fn sealed(alloc: Global, label: Label, bytes: &[u8]) -> Result<Vec<u8>, Failure> {
    let mut out = Vec::new(alloc);
    seal_bytes(label, bytes, &mut out)?;
    Ok(out)
}

/// Checks the header and the checksum, and writes the bytes between them.
pub fn open(
    rt: &(impl AllocGlobal + Files + Input + Print + Eprint),
    words: &ArgMatches<'_>,
    shows: bool,
) -> Result<(), Failure> {
    let bytes = read_bytes(rt, words.get_str("file"), shows)?;
    write_opened(rt, words, &bytes)
}

// Writes the bytes of the sealed values.
fn write_opened(
    rt: &(impl AllocGlobal + Files + Print),
    words: &ArgMatches<'_>,
    bytes: &[u8],
) -> Result<(), Failure> {
    let out = opened(rt.alloc(), bytes, words.get_flag("many"))?;
    write_bytes(rt, words.get_str("output"), &out)
}

// The bytes of the sealed values, one behind the other.
fn opened(alloc: Global, bytes: &[u8], many: bool) -> Result<Vec<u8>, Failure> {
    let parts = sealed_parts(alloc, bytes, many)?;
    Ok(joined(alloc, &parts)?)
}

fn joined(alloc: Global, parts: &[Part<'_>]) -> Result<Vec<u8>, AllocError> {
    let mut out = Vec::new(alloc);
    for part in parts {
        out.extend_from_slice(part.bytes)?;
    }
    Ok(out)
}
