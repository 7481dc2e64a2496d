//! Links from a place to its column, and to the places below it.
#![tactic(auto)]

ghost use Rattle.std.specs.Prelude.{◌≡◌, ◌≤◌, ◌++◌, ◌∷◌, [], None, true, IfSome, OnOk, OnErr, IfErr};
ghost use Rattle.bitcode_serde.specs.Links.{is_among, IsUpTo};

use crate::step::Step;
use bitcode_memory::error::{Error, Reason};
use std::alloc::Global;

/// The links of a place: the number of its column, the places one step below it that were met, each by its index among
/// all places below the root, and the last field among them.
///
/// Places that were not met take no memory.
#[derive(Drop)]
pub struct Links {
    pub(crate) column: Option<usize>,
    pub(crate) children: Vec<usize>,
    pub(crate) last_field: usize,
}

// The last field, where there is one more step.
fn later_field(last: usize, step: Step) -> usize
    ensures grows { last ≤ result }
    ensures there { IsUpTo result step }
{
    match step {
        Step::Field(i) => i.max(last),
        _ => last,
    }
}

impl Links {
    /// Creates links to nothing, without allocating.
    pub fn new(alloc: Global) -> Self
        ensures column { result.column ≡ None }
        ensures children { result.children.items ≡ [] }
        ensures last_field { result.last_field ≡ 0 }
    {
        Links {
            column: None,
            children: Vec::new(alloc),
            last_field: 0,
        }
    }

    /// The child at a position, or else the last one.
    #[inline(always)]
    pub fn child(&self, position: usize) -> Option<usize>
        ensures { IfSome result (λ i. is_among i self.now.children.items ≡ true) }
    {
        match self.children.get(position) {
            Some(i) => Some(*i),
            None => match self.children.last() {
                Some(i) => Some(*i),
                None => None,
            },
        }
    }

    /// Adds a child, which is that step below.
    ///
    /// If an allocation fails, the error is `out of memory`.
    pub fn add(&mut self, step: Step, child: usize) -> Result<(), Error>
        ensures column { self.new.column ≡ self.old.column }
        ensures added { OnOk result
            (self.new.children.items ≡ self.old.children.items ++ child ∷ []) }
        ensures there { OnOk result (IsUpTo self.new.last_field step) }
        ensures grows { self.old.last_field ≤ self.new.last_field }
        ensures unchanged { OnErr result (self.new.children.items ≡ self.old.children.items) }
        ensures refused { IfErr result (λ e. e.reason ≡ Reason.OutOfMemory) }
    {
        self.children.push(child)?;
        self.last_field = later_field(self.last_field, step);
        Ok(())
    }
}
