//! The number of nodes that decoding may keep.
ghost use Rattle.std.specs.Prelude.{◌≡◌, ◌≢◌, ◌++◌, ◌∷◌, [], vec_capacity, OnOk, IfOk, IfErr, MatchBool};
ghost use Rattle.bitcode_serde.specs.Budget.{IsLeft, spend};
ghost use Rattle.bitcode_serde.specs.declared.budget.Budget.TheVariants.{Endless, Spent};

use bitcode_memory::error::{Error, Reason};
use std::alloc::Global;

/// How many more nodes of a value may be kept.
#[derive(Clone, Copy)]
pub enum Budget {
    /// There is no limit.
    Endless,
    /// At most this number.
    Nodes(usize),
    /// The value has more nodes than the limit. The rest is validated, but not kept.
    Spent,
}

impl Budget {
    /// Takes `count` nodes. If fewer are left, the budget is spent.
    #[inline(always)]
    pub fn take(&mut self, count: usize)
        ensures { self.new ≡ spend count self.old }
    {
        match *self {
            Budget::Endless => {}
            Budget::Nodes(left) if count <= left => *self = Budget::Nodes(left - count),
            Budget::Nodes(_) => *self = Budget::Spent,
            Budget::Spent => {}
        }
    }

    /// Whether more nodes were taken than the budget had.
    #[inline(always)]
    pub fn is_spent(&self) -> bool
        ensures { MatchBool result (self.now ≡ Spent) (IsLeft self.now) }
    {
        matches!(self, Budget::Spent)
    }

    /// Whether `count` nodes can be taken.
    pub fn has(&self, count: usize) -> bool
        ensures { MatchBool result (IsLeft (spend count self.now)) (spend count self.now ≡ Spent) }
    {
        let mut after = *self;
        after.take(count);
        !after.is_spent()
    }

    /// An empty list for `count` items. Without a limit it has room for all of them; with one it has no memory, and
    /// grows with the items that are kept.
    ///
    /// If an allocation fails, the error is `out of memory`.
    pub fn room<T>(&self, alloc: Global, count: usize) -> Result<Vec<T>, Error>
        ensures empty { IfOk result (λ items. items.items ≡ []) }
        ensures bounded { IfOk result (λ items. self.now ≢ Endless → vec_capacity items ≡ 0) }
        ensures refused { IfErr result (λ e. e.reason ≡ Reason.OutOfMemory) }
    {
        match self {
            Budget::Endless => Ok(Vec::with_capacity(alloc, count)?),
            _ => Ok(Vec::new(alloc)),
        }
    }

    /// Adds an item to the list, unless the budget is spent: then the list stays as it is.
    ///
    /// If an allocation fails, the error is `out of memory`.
    #[inline(always)]
    pub fn keep<T: Drop>(&self, items: &mut Vec<T>, item: T) -> Result<(), Error>
        ensures kept { IsLeft self.now → OnOk result
            (items.new.items ≡ items.old.items ++ item ∷ []) }
        ensures spent { self.now ≡ Spent → items.new ≡ items.old }
        ensures refused { IfErr result (λ e. e.reason ≡ Reason.OutOfMemory) }
    {
        if !self.is_spent() {
            items.push(item)?;
        }
        Ok(())
    }
}
