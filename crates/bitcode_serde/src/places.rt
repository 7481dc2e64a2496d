//! The places that were reached, by number.
#![tactic(auto)]

ghost use Rattle.std.specs.Prelude.{◌≡◌, ◌≢◌, ◌<◌, ◌≤◌, ◌⊎◌, ℕ, [], ◌∷◌, ◌++◌, None, Some, true, length, slice_get};
ghost use Rattle.std.specs.Prelude.{IfOk, OnOk, OnErr, IfErr, IfSome, IfNone, IsSomeAnd, IsTrue, MatchBool};
ghost use Rattle.std.proofs.Props.{props};
ghost use Rattle.bitcode_serde.specs.Links.{is_among, IsUpTo, children, last_field, column_link};
ghost use Rattle.bitcode_serde.specs.Places.{step_of, place_at, places, IsPlace, LieBelow, AreApart, AreLinked};
ghost use Rattle.bitcode_serde.specs.Places.{LinkBelow, IsNew, IsGrown};

use crate::links::Links;
use crate::step::Step;
use bitcode_memory::error::{Error, Reason};
use std::alloc::Global;

/// A place below another.
#[derive(Clone, Copy)]
pub struct Below {
    pub(crate) above: usize,
    pub(crate) step: Step,
}

/// The places that were reached, and their links.
///
/// Places are numbered in the order in which they are reached. 0 is the root, and each other place is below an earlier
/// one. A step from a place to the next one, or to its column, takes the same time for any number of places.
#[derive(Drop)]
pub struct Places {
    alloc: Global,
    pub(crate) below: Vec<Below>,
    pub(crate) links: Vec<Links>,

    ghost below_others: { LieBelow below.items },
    ghost apart: { AreApart (places below.items) },
    ghost linked: { AreLinked below.items links.items } by { Prim.hlevel props },
    ghost no_others: { LinkBelow below.items links.items } by { Prim.hlevel props },
}

// Makes room for what a place leads to.
fn make_room(alloc: Global, links: &mut Vec<Links>, place: usize) -> Result<(), Error>
    ensures children { (above : ℕ)
        → children links.new.items above ≡ children links.old.items above }
    ensures last { (above : ℕ)
        → last_field links.new.items above ≡ last_field links.old.items above }
    ensures columns { (n : ℕ) → column_link links.new.items n ≡ column_link links.old.items n }
    ensures room { OnOk result (place < length links.new.items) }
    ensures refused { IfErr result (λ e. e.reason ≡ Reason.OutOfMemory) }
{
    while links.len() <= place {
        links.push(Links::new(alloc))?;
    }
    Ok(())
}

// Adds a child to a place, which is that step below it.
fn add_child(
    alloc: Global,
    links: &mut Vec<Links>,
    above: usize,
    step: Step,
    child: usize,
) -> Result<(), Error>
    ensures there { OnOk result
        (children links.new.items above ≡ children links.old.items above ++ child ∷ []) }
    ensures others { (a : ℕ) → (children links.new.items a ≡ children links.old.items a)
        ⊎ (a ≡ above) }
    ensures last { OnOk result (IsUpTo (last_field links.new.items above) step) }
    ensures grows { (a : ℕ) → last_field links.old.items a ≤ last_field links.new.items a }
    ensures columns { (n : ℕ) → column_link links.new.items n ≡ column_link links.old.items n }
    ensures unchanged { OnErr result
        ((a : ℕ) → children links.new.items a ≡ children links.old.items a) }
    ensures refused { IfErr result (λ e. e.reason ≡ Reason.OutOfMemory) }
{
    make_room(alloc, links, above)?;
    links[above].add(step, child)
}

// Whether the place at an index is that step below the one above it.
#[inline(always)]
fn is_below(below: &[Below], i: usize, step: Step) -> bool
    ensures { MatchBool result (IsSomeAnd (slice_get below.now i) (λ b. b.step ≡ step))
        ((b : Below) → slice_get below.now i ≡ Some b → b.step ≢ step) }
{
    match below.get(i) {
        Some(b) => b.step == step,
        None => false,
    }
}

// Whether the place at an index is that step below that place.
#[inline(always)]
fn is_at(below: &[Below], i: usize, above: usize, step: Step) -> bool
    ensures { IsTrue result → slice_get below.now i ≡ Some
        (record { above = above; step = step }) }
{
    match below.get(i) {
        Some(b) => b.above == above && b.step == step,
        None => false,
    }
}

// The child that is that step below, looked for among all.
#[inline(never)]
fn search(below: &[Below], children: &[usize], step: Step) -> Option<usize>
    ensures found { IfSome result (λ i. (is_among i children.now ≡ true)
        × IsSomeAnd (slice_get below.now i) (λ b. b.step ≡ step)) }
    ensures none { IfNone result ((i : ℕ) → is_among i children.now ≡ true
        → (b : Below) → slice_get below.now i ≡ Some b → b.step ≢ step) }
{
    for i in children {
        if is_below(below, *i, step) {
            return Some(*i);
        }
    }
    None
}

// Whether the step is to a later field.
#[inline(always)]
fn is_later(step: Step, last: usize) -> bool
    ensures { IsTrue result → IsUpTo last step → ⊥ }
{
    match step {
        Step::Field(i) => i > last,
        _ => false,
    }
}

// The child that is that step below, looked for at a position first.
#[inline(always)]
fn find(below: &[Below], links: &Links, step: Step, position: usize) -> Option<usize>
    requires { (i : ℕ) → is_among i links.now.children.items ≡ true
        → (b : Below) → slice_get below.now i ≡ Some b → IsUpTo links.now.last_field b.step }
    ensures found { IfSome result (λ i. (is_among i links.now.children.items ≡ true)
        × IsSomeAnd (slice_get below.now i) (λ b. b.step ≡ step)) }
    ensures none { IfNone result ((i : ℕ) → is_among i links.now.children.items ≡ true
        → (b : Below) → slice_get below.now i ≡ Some b → b.step ≢ step) }
{
    if let Some(i) = links.child(position) {
        if is_below(below, i, step) {
            return Some(i);
        }
    }
    if is_later(step, links.last_field) {
        return None;
    }
    search(below, &links.children, step)
}

// Links a place to its column.
fn set_column(links: &mut [Links], place: usize, column: usize)
    requires { place < length links.old }
    ensures there { column_link links.new place ≡ Some column }
    ensures others { (n : ℕ) → (column_link links.new n ≡ column_link links.old n) ⊎ (n ≡ place) }
    ensures children { (a : ℕ) → children links.new a ≡ children links.old a }
    ensures last { (a : ℕ) → last_field links.new a ≡ last_field links.old a }
{
    links[place].column = Some(column);
}

impl Places {
    /// Starts with the root, without allocating.
    pub fn new(alloc: Global) -> Self
        ensures root { result.below.items ≡ [] }
        ensures columns { (n : ℕ) → column_link result.links.items n ≡ None }
    {
        Places {
            alloc,
            below: Vec::new(alloc),
            links: Vec::new(alloc),
        }
    }

    /// How many places were reached below the root.
    pub fn len(&self) -> usize
        ensures { result ≡ length self.now.below.items }
    {
        self.below.len()
    }

    /// The number of the column of a place, if it has one.
    #[inline(always)]
    pub fn column(&self, place: usize) -> Option<usize>
        ensures { result ≡ column_link self.now.links.items place }
    {
        match self.links.get(place) {
            Some(links) => links.column,
            None => None,
        }
    }

    /// The number of the place one step below another, if just so many places were met between the two.
    #[inline(always)]
    pub fn near(&self, above: usize, step: Step, between: usize) -> Option<usize>
        ensures { IfSome result (λ n. IsPlace self.now.below.items n
            (step_of step ∷ place_at (places self.now.below.items) above)) }
    {
        let i = above.wrapping_add(between);
        if is_at(&self.below, i, above, step) {
            return Some(i + 1);
        }
        None
    }

    /// The number of the place one step below another, if it was met. It is looked for at a position among the children
    /// first.
    #[inline(always)]
    pub fn met(&self, above: usize, step: Step, position: usize) -> Option<usize>
        ensures some { IfSome result (λ n. 0 < n) }
        ensures found { IfSome result
            (λ n. IsPlace self.now.below.items n
            (step_of step ∷ place_at (places self.now.below.items) above)) }
        ensures none { IfNone result
            (IsNew self.now.below.items (record { above = above; step = step })) }
    {
        match self.links.get(above) {
            Some(links) => match find(&self.below, links, step, position) {
                Some(i) => Some(i + 1),
                None => None,
            },
            None => None,
        }
    }

    /// The number of the place one step below another.
    ///
    /// If an allocation fails, the error is `out of memory`.
    #[inline(always)]
    pub fn below(&mut self, above: usize, step: Step) -> Result<usize, Error>
        requires { above ≤ length self.old.below.items }
        ensures some { IfOk result (λ n. 0 < n) }
        ensures found { IfOk result
            (λ n. IsPlace self.new.below.items n
            (step_of step ∷ place_at (places self.old.below.items) above)) }
        ensures grown { IfOk result
            (λ n. IsGrown self.old.below.items (record { above = above; step = step })
            self.new.below.items n) }
        ensures columns { (n : ℕ) → column_link self.new.links.items n ≡ column_link
            self.old.links.items n }
        ensures refused { IfErr result (λ e. e.reason ≡ Reason.OutOfMemory) }
        ensures unchanged { OnErr result (self.new.below.items ≡ self.old.below.items) }
    {
        match self.met(above, step, step.position()) {
            Some(place) => Ok(place),
            None => self.add(above, step),
        }
    }

    // Adds the place one step below another, which was not met.
    #[cold]
    #[inline(never)]
    fn add(&mut self, above: usize, step: Step) -> Result<usize, Error>
        requires above { above ≤ length self.old.below.items }
        requires fresh { IsNew self.old.below.items (record { above = above; step = step }) }
        ensures some { IfOk result (λ n. 0 < n) }
        ensures found { IfOk result
            (λ n. IsPlace self.new.below.items n
            (step_of step ∷ place_at (places self.old.below.items) above)) }
        ensures grown { IfOk result
            (λ n. IsGrown self.old.below.items (record { above = above; step = step })
            self.new.below.items n) }
        ensures columns { (n : ℕ) → column_link self.new.links.items n ≡ column_link
            self.old.links.items n }
        ensures refused { IfErr result (λ e. e.reason ≡ Reason.OutOfMemory) }
        ensures unchanged { OnErr result (self.new.below.items ≡ self.old.below.items) }
    {
        let child = self.len();
        self.below.reserve(1)?;
        add_child(self.alloc, &mut self.links, above, step, child)?;
        self.below.push_reserved(Below { above, step });
        Ok(child + 1)
    }

    /// Reserves room for the number of a place's column.
    ///
    /// If an allocation fails, the error is `out of memory`.
    pub fn make_room(&mut self, place: usize) -> Result<(), Error>
        ensures below { self.new.below ≡ self.old.below }
        ensures columns { (n : ℕ) → column_link self.new.links.items n ≡ column_link
            self.old.links.items n }
        ensures room { OnOk result (place < length self.new.links.items) }
        ensures refused { IfErr result (λ e. e.reason ≡ Reason.OutOfMemory) }
    {
        make_room(self.alloc, &mut self.links, place)
    }

    /// Sets the number of a place's column. The caller must have reserved the room.
    pub fn set_column(&mut self, place: usize, column: usize)
        requires { place < length self.old.links.items }
        ensures below { self.new.below ≡ self.old.below }
        ensures there { column_link self.new.links.items place ≡ Some column }
        ensures others { (n : ℕ)
            → (column_link self.new.links.items n ≡ column_link self.old.links.items n)
            ⊎ (n ≡ place) }
    {
        set_column(&mut self.links, place, column);
    }
}
