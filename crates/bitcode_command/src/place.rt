//! Where values are in the whole value.
use crate::failure::Failure;
use std::alloc::{AllocError, Global};

// How many bytes the paths of all columns may take.
const MOST_BYTES: usize = 1 << 26;

/// A step from values to a part of them.
#[derive(Clone, Copy)]
pub enum Step<'a> {
    /// A field of a struct, or the payload of a variant.
    Field(&'a str),
    /// A field without a name.
    Index(usize),
    /// The elements of lists or arrays.
    Elements,
    /// The keys of maps.
    Keys,
    /// The values of maps.
    Values,
}

/// The steps to values, and how many bytes the paths of further columns may take.
#[derive(Drop)]
pub struct Place<'a> {
    alloc: Global,
    steps: Vec<Step<'a>>,
    left: usize,
}

impl<'a> Place<'a> {
    /// The whole value.
    pub fn new(alloc: Global) -> Self {
        Place {
            alloc,
            steps: Vec::new(alloc),
            left: MOST_BYTES,
        }
    }

    /// Goes a step on.
    pub fn enter(&mut self, step: Step<'a>) -> Result<(), Failure> {
        self.steps.push(step)?;
        Ok(())
    }

    /// Goes a step back.
    pub fn leave(&mut self) {
        let _ = self.steps.pop();
    }

    /// The path, such as `players[].position.1`.
    pub fn text(&self) -> Result<String, AllocError> {
        let mut text = String::new(self.alloc);
        for step in &self.steps {
            push_step(self.alloc, &mut text, *step)?;
        }
        Ok(text)
    }

    /// The path of a column, which counts.
    pub fn noted(&mut self) -> Result<String, Failure> {
        let text = self.text()?;
        match self.left.checked_sub(text.len()) {
            Some(left) => {
                self.left = left;
                Ok(text)
            }
            None => Err(Failure::OutOfMemory),
        }
    }
}

// Puts a step behind others.
fn push_step(alloc: Global, text: &mut String, step: Step<'_>) -> Result<(), AllocError> {
    match step {
        Step::Field(name) => {
            push_dot(text)?;
            text.push_str(name)
        }
        Step::Index(index) => {
            push_dot(text)?;
            text.push_str(&format!(in alloc; "{index}")?)
        }
        Step::Elements => text.push_str("[]"),
        Step::Keys => text.push_str("[].key"),
        Step::Values => text.push_str("[].value"),
    }
}

// Puts a dot behind other steps.
fn push_dot(text: &mut String) -> Result<(), AllocError> {
    if text.is_empty() {
        return Ok(());
    }
    text.push_str(".")
}
