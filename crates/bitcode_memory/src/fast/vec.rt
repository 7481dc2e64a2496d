//! The list that encoders push to, in memory of its own.
#![tactic(auto, using(crate::proofs::PlacesLemmas::length_front, crate::proofs::PlacesLemmas::last_written, crate::proofs::PlacesLemmas::all_written), unfolding(crate::specs::Fast::fast_items, crate::specs::Fast::fast_room, crate::specs::Lending::with_fast_items))]

ghost use Rattle.std.specs.Prelude.{◌≡◌, ◌^◌, ◌<◌, ◌≤◌, List, length};

use super::PushUnchecked;
use super::memory::{Lease, Places, Start, give_back, nowhere, take_block};
use crate::error::{Error, Reason};
use std::alloc::{AllocError, Global};
use std_alloc::room::may_hold;

/// A list with unchecked pushes into room that was reserved before.
///
/// After `list.reserve(2)?`, two calls of `push_unchecked`, or one of `extend_unchecked` with two items, neither fail
/// nor allocate. The checker proves at each call that the room is there.
pub struct FastVec<T: Copy> {
    start: Start<T>,
    capacity: usize,
    len: usize,
    places: Places<T>,
    lease: Lease<T, Global>,
    alloc: Global,
    ghost block: { (places.at ≡ start.ptr) × (places.capacity ≡ capacity) },
    ghost leased: { (lease.at ≡ start.ptr) × (lease.capacity ≡ capacity) × (lease.alloc ≡ alloc) },
    ghost counts: { (len ≤ length places.items) × (length places.items ≤ capacity)
        × (capacity < 2 ^ 63) },
}

impl<T: Copy> FastVec<T> {
    ghost use Rattle.std.specs.Prelude.{[], ◌∷◌, ◌++◌, ◌+◌, vec_len, IsOk, IfOk, OnOk, IfErr, OnErr};
    ghost use Rattle.std.specs.Borrow.{sem};
    ghost use Rattle.bitcode_memory.specs.Fast.{fast_items, fast_room};
    ghost use Rattle.bitcode_memory.specs.Lending.{with_fast_items, LendsItems};

    /// Creates an empty list without allocating.
    pub fn new(alloc: Global) -> Self
        ensures items { fast_items result ≡ [] }
        ensures room { fast_room result ≡ 0 }
    {
        let (start, places, lease) = nowhere(&alloc);
        FastVec {
            start,
            capacity: 0,
            len: 0,
            places,
            lease,
            alloc,
        }
    }

    // An empty list with room for so many items, at least one.
    fn with_room(alloc: Global, capacity: usize) -> Result<Self, AllocError>
        requires { 0 < capacity }
        ensures items { IfOk result (λ v. fast_items v ≡ []) }
        ensures room { IfOk result (λ v. fast_room v ≡ capacity) }
    {
        if !may_hold::<T>(capacity) {
            return Err(AllocError);
        }
        let (start, places, lease) = take_block(&alloc, capacity)?;
        Ok(FastVec {
            start,
            capacity,
            len: 0,
            places,
            lease,
            alloc,
        })
    }

    /// The number of items.
    pub fn len(&self) -> usize
        ensures { result ≡ length (fast_items self.now) }
    {
        self.len
    }

    /// The items, in the order of their pushes.
    pub fn as_slice(&self) -> &[T]
        ensures { result.now ≡ fast_items self.now }
    {
        self.places.slice(self.start, self.len)
    }

    /// The items, mutably.
    pub fn as_mut_slice(&mut self) -> &mut [T]
        ensures* writes_back { sem 𝓛 (LendsItems T.row self.entry result) }
        ensures value { result.now ≡ fast_items self.old }
        ensures items { (written : List T) → length written ≡ length (fast_items self.old)
            → fast_items (with_fast_items self.old written) ≡ written }
        ensures room { (written : List T)
            → fast_room (with_fast_items self.old written) ≡ fast_room self.old }
    {
        let (start, len) = (self.start, self.len);
        self.places.slice_mut(start, len)
    }

    /// Drops the items and keeps their room.
    pub fn clear(&mut self)
        ensures items { fast_items self.new ≡ [] }
        ensures room { fast_room self.new ≡ fast_room self.old + length (fast_items self.old) }
    {
        self.len = 0;
    }

    /// Reserves room for `n` more items, if it is not there yet.
    ///
    /// If the allocation fails, the error is `out of memory`, and nothing changes.
    pub fn reserve(&mut self, n: usize) -> Result<(), Error>
        ensures items { fast_items self.new ≡ fast_items self.old }
        ensures ok { OnOk result (n ≤ fast_room self.new) }
        ensures grows { fast_room self.old ≤ fast_room self.new }
        ensures succeeds { n ≤ fast_room self.old → IsOk result }
        ensures reason { IfErr result (λ e. e.reason ≡ Reason.OutOfMemory) }
        ensures unchanged { OnErr result (fast_room self.new ≡ fast_room self.old) }
    {
        if n <= self.capacity - self.len {
            return Ok(());
        }
        self.grow(n)?;
        Ok(())
    }

    // Moves to a block with room for `n` more items, and twice as large as this one if that is enough.
    #[cold]
    #[inline(never)]
    fn grow(&mut self, n: usize) -> Result<(), AllocError>
        requires { fast_room self.old < n }
        ensures items { fast_items self.new ≡ fast_items self.old }
        ensures ok { OnOk result (n ≤ fast_room self.new) }
        ensures grows { fast_room self.old ≤ fast_room self.new }
        ensures unchanged { OnErr result (fast_room self.new ≡ fast_room self.old) }
    {
        let Some(wanted) = self.len.checked_add(n) else {
            return Err(AllocError);
        };
        let mut larger = FastVec::with_room(self.alloc, wanted.max(2 * self.capacity))?;
        larger.extend_unchecked(self.as_slice());
        *self = larger;
        Ok(())
    }

    /// Pushes the items of a slice. The caller must have reserved the room.
    #[inline(always)]
    pub fn extend_unchecked(&mut self, slice: &[T])
        requires { length slice.now ≤ fast_room self.old }
        ensures items { fast_items self.new ≡ fast_items self.old ++ slice.now }
        ensures room { fast_room self.old ≤ fast_room self.new + length slice.now }
    {
        // what `write_short` asks for: few items, eight before them, and room for all that it writes
        if slice.len() < 16 && self.len >= 8 && self.capacity - self.len >= 15 {
            self.places.write_short(self.start, self.len, slice);
            self.len += slice.len();
        } else {
            self.extend_long(slice);
        }
    }

    /// Pushes at most 64 items. The caller must have reserved room for them, and for at least 15.
    ///
    /// Where there are fewer than 16, `others` are written past the end for a moment. Their values do not matter, but
    /// the compiler must not know them, or it would branch on the count.
    #[inline(always)]
    pub fn extend_few(&mut self, slice: &[T], others: &[T; 8])
        requires size { length slice.now ≤ 64 }
        requires room { (15 ≤ fast_room self.old) × (length slice.now ≤ fast_room self.old) }
        ensures items { fast_items self.new ≡ fast_items self.old ++ slice.now }
        ensures room { fast_room self.old ≡ fast_room self.new + length slice.now }
    {
        if slice.len() < 16 {
            self.places.write_few(self.start, self.len, slice, others);
        } else {
            self.places.write_blocks(self.start, self.len, slice);
        }
        self.len += slice.len();
    }

    // The same for many items, and for few where `write_short` does not serve.
    #[inline(never)]
    fn extend_long(&mut self, slice: &[T])
        requires { length slice.now ≤ fast_room self.old }
        ensures items { fast_items self.new ≡ fast_items self.old ++ slice.now }
        ensures room { fast_room self.old ≤ fast_room self.new + length slice.now }
    {
        self.places.write_all(self.start, self.len, slice);
        self.len += slice.len();
    }

    /// Copies the items of a `Vec`.
    ///
    /// If the allocation fails, the error is `out of memory`.
    pub fn from_vec(alloc: Global, vec: Vec<T>) -> Result<FastVec<T>, Error>
        ensures items { IfOk result (λ v. fast_items v ≡ vec.items) }
        ensures reason { IfErr result (λ e. e.reason ≡ Reason.OutOfMemory) }
        ensures succeeds { vec_len vec ≡ 0 → IsOk result }
    {
        let mut copy = FastVec::new(alloc);
        copy.reserve(vec.len())?;
        copy.extend_unchecked(&vec);
        Ok(copy)
    }

    /// Copies the items into a `Vec`.
    ///
    /// If the allocation fails, the error is `out of memory`.
    pub fn into_vec(self) -> Result<Vec<T>, Error>
        ensures items { IfOk result (λ v. v.items ≡ fast_items self) }
        ensures reason { IfErr result (λ e. e.reason ≡ Reason.OutOfMemory) }
        ensures succeeds { length (fast_items self) ≡ 0 → IsOk result }
    {
        let mut copy = Vec::with_capacity(self.alloc, self.len())?;
        copy.extend_from_slice(self.as_slice()).unwrap();
        Ok(copy)
    }
}

impl<T: Copy> Drop for FastVec<T> {
    fn drop(self) {
        let FastVec {
            start,
            capacity,
            len: _,
            places,
            lease,
            alloc,
        } = self;
        give_back(&alloc, start, capacity, places, lease);
    }
}

impl<T: Copy> PushUnchecked<T> for FastVec<T> {
    ghost use Rattle.bitcode_memory.specs.Fast.{fast_items, fast_room};

    ghost items = { fast_items };

    ghost room = { fast_room };

    fn push_unchecked(&mut self, t: T) {
        self.places.write(self.start, self.len, t);
        self.len += 1;
    }
}
