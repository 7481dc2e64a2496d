//! The words that the command takes.
use clap::{Arg, ArgAction, Command, value_parser};
use std::alloc::{AllocError, Global};

const STATUSES: &str = "\
Without FILE, a call reads standard input. `--help` behind a call tells of its words.

Statuses:
  0  the call did what it says
  1  the input is no value of the type: the bytes, the seal or the JSON is at fault
  2  the words do not go together
  3  the schema is none, or the format does not have its types
  4  a file cannot be read or written
  5  out of memory";

// How many nodes a value may have if nothing else is said.
const LIMIT: &str = "16777216";

// What a word of a call is.
#[derive(Clone, Copy)]
enum WordKind {
    /// The file that is read.
    File,
    /// A word that is there or not.
    Flag,
    /// A text behind the word, which is called so.
    Text(&'static str),
    /// The same, which must be there.
    Needed(&'static str),
    /// A number of nodes.
    Nodes,
    /// The version of a type.
    Version,
}

// A word of a call.
#[derive(Clone, Copy)]
struct Word {
    name: &'static str,
    short: Option<char>,
    kind: WordKind,
    help: &'static str,
}

const FILE: Word = Word {
    name: "file",
    short: None,
    kind: WordKind::File,
    help: "The file to read",
};

const OUTPUT: Word = Word {
    name: "output",
    short: Some('o'),
    kind: WordKind::Text("FILE"),
    help: "The file to write, in the place of standard output",
};

const SCHEMA: Word = Word {
    name: "schema",
    short: Some('s'),
    kind: WordKind::Needed("SCHEMA"),
    help: "The file of the type, from `scripts/new_type --schema`",
};

const SEALED: Word = Word {
    name: "sealed",
    short: None,
    kind: WordKind::Flag,
    help: "The file is sealed: tell of the seal",
};

const MANY: Word = Word {
    name: "many",
    short: None,
    kind: WordKind::Flag,
    help: "The file has sealed values, one behind the other",
};

const SECOND: Word = Word {
    name: "second",
    short: None,
    kind: WordKind::Flag,
    help: "The second format, which has recursive types",
};

const NODES: Word = Word {
    name: "limit",
    short: None,
    kind: WordKind::Nodes,
    help: "How many nodes a value may have",
};

const JSON: Word = Word {
    name: "json",
    short: None,
    kind: WordKind::Flag,
    help: "Write the table as JSON",
};

const SVG: Word = Word {
    name: "svg",
    short: None,
    kind: WordKind::Text("FILE"),
    help: "Write a picture of the columns",
};

const STRICT: Word = Word {
    name: "strict",
    short: None,
    kind: WordKind::Flag,
    help: "Accept only the bytes that `encode` writes",
};

const KIND: Word = Word {
    name: "kind",
    short: None,
    kind: WordKind::Needed("KIND"),
    help: "The number of the type, such as 0x52454353",
};

const VERSION: Word = Word {
    name: "version",
    short: None,
    kind: WordKind::Version,
    help: "The version of the type",
};

// A call, and the words that it takes.
struct Call {
    name: &'static str,
    about: &'static str,
    words: &'static [Word],
}

const CALLS: [Call; 6] = [
    Call {
        name: "columns",
        about: "Shows where each column is, and how it is packed",
        words: &[FILE, SCHEMA, SEALED, MANY, JSON, SVG],
    },
    Call {
        name: "decode",
        about: "Writes the value as JSON",
        words: &[FILE, SCHEMA, OUTPUT, SECOND, NODES, SEALED, MANY],
    },
    Call {
        name: "encode",
        about: "Encodes a value that is given as JSON",
        words: &[FILE, SCHEMA, OUTPUT, SECOND],
    },
    Call {
        name: "check",
        about: "Tells in a line whether the file has a value of the type, or which column is at fault",
        words: &[FILE, SCHEMA, SECOND, NODES, SEALED, MANY, STRICT],
    },
    Call {
        name: "seal",
        about: "Puts a header and a checksum around the bytes",
        words: &[FILE, OUTPUT, KIND, VERSION],
    },
    Call {
        name: "open",
        about: "Checks the header and the checksum, and writes the bytes between them",
        words: &[FILE, OUTPUT, MANY],
    },
];

/// The command and its calls.
pub fn command<'a>(alloc: Global) -> Result<Command<'a>, AllocError> {
    let calls = calls(alloc)?;
    Command::new(alloc, "bitcode")
        .about("Shows, checks and converts what bitcode encodes.")
        .after_help(STATUSES)
        .subcommand_required(true)
        .subcommands(calls)
}

fn calls<'a>(alloc: Global) -> Result<Vec<Command<'a>>, AllocError> {
    let mut calls = Vec::new(alloc);
    for call in &CALLS {
        calls.push(call_of(alloc, call)?)?;
    }
    Ok(calls)
}

// A call, as the reader of words knows it.
fn call_of<'a>(alloc: Global, call: &Call) -> Result<Command<'a>, AllocError> {
    let mut command = Command::new(alloc, call.name).about(call.about);
    for word in call.words {
        command = command.arg(arg(alloc, *word))?;
    }
    Ok(command)
}

// A word, as the reader of words knows it.
fn arg<'a>(alloc: Global, word: Word) -> Arg<'a> {
    let arg = Arg::new(alloc, word.name).help(word.help);
    match word.kind {
        WordKind::File => arg.value_name("FILE"),
        WordKind::Flag => arg.long(word.name).action(ArgAction::SetTrue),
        WordKind::Text(value) => with_text(arg, word, value),
        WordKind::Needed(value) => with_text(arg, word, value).required(true),
        WordKind::Nodes => with_text(arg, word, "NODES")
            .value_parser(value_parser!(u64))
            .default_value(LIMIT),
        WordKind::Version => with_text(arg, word, "VERSION")
            .value_parser(value_parser!(u16))
            .required(true),
    }
}

// The same with a text behind it.
fn with_text<'a>(arg: Arg<'a>, word: Word, value: &'a str) -> Arg<'a> {
    let arg = arg.long(word.name).value_name(value);
    match word.short {
        Some(short) => arg.short(short),
        None => arg,
    }
}
