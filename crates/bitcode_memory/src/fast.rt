//! Lists with reserved room, and lists that are read front to back.
#![tactic(auto, unfolding(crate::specs::Fast::slice_rest, crate::specs::Fast::cow_rest, crate::specs::Fast::cow_owned))]

ghost use Rattle.std.specs.Prelude.{◌≡◌, ℕ, ◌+◌, ◌<◌, ◌≤◌, List, [], ◌∷◌, ◌++◌, length, take, drop, IsOk, IfOk, IfErr};
ghost use Rattle.std.specs.Prelude.{MatchOption};
ghost use Rattle.std.specs.Borrow.{sem};
ghost use Rattle.bitcode_memory.specs.Fast.{slice_rest, held_items, cow_rest, cow_owned};
ghost use Rattle.bitcode_memory.specs.Lending.{EndsBehind};

mod memory;
mod vec;

use crate::error::{Error, Reason};
use std::alloc::Global;
use std::mem::replace;

// A crate can name a list in a contract only if the types of its fields are exported.
#[doc(hidden)]
pub use memory::{Lease, Places, Start};
pub use vec::FastVec;

/// The list that encoders push to.
pub type VecImpl<T> = FastVec<T>;

/// The slice that decoders read from.
pub type SliceImpl<'a, T> = FastSlice<'a, T>;

/// Pushing without a capacity check, into reserved room.
pub trait PushUnchecked<T> {
    ghost items: { Self → List T };

    ghost room: { Self → ℕ };

    /// Pushes an item. The caller must have reserved the room.
    fn push_unchecked(&mut self, t: T)
        requires { 0 < room self.old }
        ensures items { items self.new ≡ items self.old ++ t ∷ [] }
        ensures room { room self.new + 1 ≡ room self.old };
}

/// Reading from the front without a bounds check, where enough items are left.
pub trait NextUnchecked<'a, T: Copy> {
    ghost rest: { Self → List T };

    /// Takes the next item.
    fn next_unchecked(&mut self) -> T
        requires { 0 < length (rest self.old) }
        ensures { rest self.old ≡ result ∷ rest self.new };

    /// Takes the next `n` items.
    fn chunk_unchecked(&mut self, n: usize) -> &'a [T]
        requires { n ≤ length (rest self.old) }
        ensures taken { result.now ≡ take n (rest self.old) }
        ensures rest { rest self.new ≡ drop n (rest self.old) };
}

/// The remaining part of a slice that is read from the front.
#[derive(Clone, Copy)]
pub struct FastSlice<'a, T> {
    rest: &'a [T],
}

impl<'a, T> From<&'a [T]> for FastSlice<'a, T> {
    ghost from_gives = { λ slice s. slice_rest s ≡ slice.now };

    fn from(slice: &'a [T]) -> Self {
        FastSlice { rest: slice }
    }
}

impl<'a, T> FastSlice<'a, T> {
    /// The remaining items.
    pub fn as_slice(&self) -> &'a [T]
        ensures { result.now ≡ slice_rest self.now }
    {
        self.rest
    }

    /// Skips `n` items.
    pub fn advance(&mut self, n: usize)
        requires { n ≤ length (slice_rest self.old) }
        ensures { slice_rest self.new ≡ drop n (slice_rest self.old) }
    {
        self.rest = &self.rest[n..];
    }
}

impl<'a, T: Copy> NextUnchecked<'a, T> for FastSlice<'a, T> {
    ghost rest = { slice_rest };

    fn next_unchecked(&mut self) -> T {
        let next = self.rest[0];
        self.rest = &self.rest[1..];
        next
    }

    fn chunk_unchecked(&mut self, n: usize) -> &'a [T] {
        let (chunk, rest) = self.rest.split_at(n);
        self.rest = rest;
        chunk
    }
}

/// A borrowed slice of the input, or an owned list.
#[derive(Drop)]
enum Held<'a, T> {
    Borrowed(&'a [T]),
    Owned(Vec<T>),
}

impl<'a, T> Held<'a, T> {
    fn items(&self) -> &[T]
        ensures { result.now ≡ held_items self.now }
    {
        match self {
            Held::Borrowed(items) => items,
            Held::Owned(vec) => vec.as_slice(),
        }
    }

    // Gives out the list that is held, if there is one and it has so many items. Nothing is held then.
    fn give_list(&mut self, len: usize) -> Option<Vec<T>>
        ensures { MatchOption result (held_items self.new ≡ held_items self.old)
            (λ vec. (held_items self.new ≡ []) × (vec.items ≡ held_items self.old)
            × (length (held_items self.old) ≡ len)) }
    {
        match self {
            Held::Owned(vec) if vec.len() == len => {
                let alloc = *vec.allocator();
                Some(replace(vec, Vec::new(alloc)))
            }
            _ => None,
        }
    }
}

// The items from a position on: none where it lies past the end.
fn from_position<T>(items: &[T], position: usize) -> &[T]
    ensures { result.now ≡ drop position items.now }
{
    if position < items.len() {
        &items[position..]
    } else {
        &[]
    }
}

/// Items that are read from the front: a borrowed slice of the input, or an owned list.
#[derive(Drop)]
pub struct CowSlice<'a, T> {
    held: Held<'a, T>,
    position: usize,
}

impl<'a, T: Drop> CowSlice<'a, T> {
    /// Creates an empty slice without allocating.
    pub fn new(alloc: Global) -> Self
        ensures rest { cow_rest result ≡ [] }
        ensures owned { cow_owned result ≡ 0 }
    {
        CowSlice {
            held: Held::Owned(Vec::new(alloc)),
            position: 0,
        }
    }

    /// Continues with the items of a slice, and drops the previous ones.
    pub fn set_borrowed(&mut self, slice: &'a [T])
        ensures { cow_rest self.new ≡ slice.now }
    {
        self.held = Held::Borrowed(slice);
        self.position = 0;
    }

    /// Continues with the items of a list, and drops the previous ones.
    pub fn set_owned(&mut self, vec: Vec<T>)
        ensures { cow_rest self.new ≡ vec.items }
    {
        self.held = Held::Owned(vec);
        self.position = 0;
    }

    /// The remaining items.
    pub fn as_slice(&self) -> &[T]
        ensures { result.now ≡ cow_rest self.now }
    {
        from_position(self.held.items(), self.position)
    }

    /// Takes the next item.
    pub fn next_unchecked(&mut self) -> T
    where
        T: Copy,
        requires { 0 < length (cow_rest self.old) }
        ensures { cow_rest self.old ≡ result ∷ cow_rest self.new }
    {
        let next = self.held.items()[self.position];
        self.advance(1);
        next
    }

    /// Takes the next `n` items.
    pub fn chunk_unchecked(&mut self, n: usize) -> &[T]
        requires { n ≤ length (cow_rest self.old) }
        ensures* rest { sem 𝓛 (EndsBehind T.row self.entry n) }
        ensures taken { result.now ≡ take n (cow_rest self.old) }
    {
        let start = self.position;
        self.advance(n);
        &from_position(self.held.items(), start)[..n]
    }

    /// Takes the next `n` items as a list: the owned list if it has no other items, otherwise a copy.
    ///
    /// If the allocation fails, the error is `out of memory`, and the items are consumed all the same.
    pub fn list_unchecked(&mut self, alloc: Global, n: usize) -> Result<Vec<T>, Error>
    where
        T: Copy,
        requires { n ≤ length (cow_rest self.old) }
        ensures taken { IfOk result (λ vec. vec.items ≡ take n (cow_rest self.old)) }
        ensures rest { cow_rest self.new ≡ drop n (cow_rest self.old) }
        ensures reason { IfErr result (λ e. e.reason ≡ Reason.OutOfMemory) }
        ensures none { n ≡ 0 → IsOk result }
    {
        if let Some(list) = self.held.give_list(n) {
            return Ok(list);
        }
        let items = self.chunk_unchecked(n);
        let mut copy = Vec::with_capacity(alloc, n)?;
        copy.extend_from_slice(items)?;
        Ok(copy)
    }

    fn advance(&mut self, n: usize)
        requires { n ≤ length (cow_rest self.old) }
        ensures position { self.new.position ≡ self.old.position + n }
        ensures held { self.new.held ≡ self.old.held }
    {
        // Its length says that the position fits.
        let _items = self.held.items();
        self.position += n;
    }
}
