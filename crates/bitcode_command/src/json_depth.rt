//! Where a text of JSON nests too deep.
use crate::fault::Fault;
use std::alloc::{AllocError, Global};

/// The most lists and objects inside one another.
const MOST_NESTED: usize = 127;

/// A list or an object that the walk is in.
#[derive(Clone, Copy)]
enum Open {
    /// The number of the element.
    List(usize),
    /// Where the name of the member begins and ends.
    Object(usize, usize),
}

/// A walk through a text of JSON.
#[derive(Drop)]
struct Walk {
    open: Vec<Open>,
    /// Where the text between quotes begins that the walk is in.
    text: Option<usize>,
    /// Whether a backslash stands before the next byte of that text.
    is_escaped: bool,
    /// Where the last text between quotes begins and ends.
    last: (usize, usize),
}

impl Walk {
    // Passes a byte of a text that began there.
    fn pass_in_text(&mut self, from: usize, at: usize, byte: u8) {
        if self.is_escaped {
            self.is_escaped = false;
        } else if byte == b'\\' {
            self.is_escaped = true;
        } else if byte == b'"' {
            self.last = (from, at);
            self.text = None;
        }
    }

    // Passes a byte between texts.
    fn pass_between(&mut self, at: usize, byte: u8) -> Result<(), AllocError> {
        match byte {
            b'"' => self.text = Some(at.saturating_add(1)),
            b'[' => self.open.push(Open::List(0))?,
            b'{' => self.open.push(Open::Object(0, 0))?,
            b']' | b'}' => {
                let _ = self.open.pop();
            }
            b',' => self.next(),
            b':' => self.named(),
            _ => {}
        }
        Ok(())
    }

    // Goes on to the next element of a list.
    fn next(&mut self) {
        if let Some(Open::List(index)) = self.open.last_mut() {
            *index = index.saturating_add(1);
        }
    }

    // Gives the member of an object its name.
    fn named(&mut self) {
        let (begin, end) = self.last;
        if let Some(open) = self.open.last_mut() {
            *open = Open::Object(begin, end);
        }
    }

    // The path to the innermost list or object.
    fn path(&self, alloc: Global, text: &str) -> Result<String, AllocError> {
        let mut path = String::new(alloc);
        for open in self.open.iter().take(MOST_NESTED) {
            let step = match *open {
                Open::List(index) => format!(in alloc; "[{index}]")?,
                Open::Object(begin, end) => {
                    let name = text.get(begin..end).unwrap_or("");
                    format!(in alloc; ".{name}")?
                }
            };
            path.push_str(&step)?;
        }
        Ok(path)
    }
}

/// The fault of a text of JSON that nests deeper than 127 lists and objects, with the path to what does. A text that is
/// no JSON may have one, too.
pub fn too_deep(alloc: Global, text: &str) -> Result<Option<Fault>, AllocError> {
    let mut walk = Walk {
        open: Vec::new(alloc),
        text: None,
        is_escaped: false,
        last: (0, 0),
    };
    for (at, byte) in text.as_bytes().iter().enumerate() {
        match walk.text {
            Some(from) => walk.pass_in_text(from, at, *byte),
            None => walk.pass_between(at, *byte)?,
        }
        if walk.open.len() > MOST_NESTED {
            let path = walk.path(alloc, text)?;
            let what = String::from_str(alloc, "nested deeper than 127 lists and objects")?;
            return Ok(Some(Fault::At { path, what }));
        }
    }
    Ok(None)
}
