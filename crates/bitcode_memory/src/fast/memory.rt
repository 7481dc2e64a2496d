//! The memory of a list with reserved room: a block of places, of which the first hold items.
ghost use Rattle.std.specs.Prelude.{◌≡◌, ◌⊎◌, ℕ, ◌+◌, ◌^◌, ◌<◌, ◌≤◌, List, [], ◌∷◌, ◌++◌, length};
ghost use Rattle.std.specs.Prelude.{take, drop, IfOk, ⊤};
ghost use Rattle.std.specs.Borrow.{sem};
ghost use Rattle.std.specs.Vec.Ownership.{FitsInBlock};
ghost use base.Fml.{ftrue};
ghost use denote.RawPtr.{Ptr};
ghost use Rattle.bitcode_memory.specs.Memory.{places_own, places_lent, lease_owns};

use std::alloc::{AllocError, Allocator};
use std::marker::{Model, PhantomData, Send, Sync};
use std::mem::{align_of, size_of};
use std::slice;

// More items than these are written one by one before the last so many.
const LONG: usize = 32;

/// A pointer to the first place. It owns nothing.
pub struct Start<T> {
    ptr: *mut T,
}

impl<T> Clone for Start<T> {
    ghost is_clone = { λ x y. y ≡ x };

    ghost is_infallible = { λ _. ⊤ };

    fn clone(&self) -> Result<Start<T>, AllocError> {
        Ok(*self)
    }
}

impl<T> Copy for Start<T> {}

unsafe impl<T> Send for Start<T> {}

unsafe impl<T> Sync for Start<T> {}

/// The owner of the places. It is zero-sized: its holder has the pointer and the counts.
pub struct Places<T> {
    mark: PhantomData<*const T>,
    ghost at: { Ptr },
    ghost capacity: { ℕ },
    ghost items: { List T },
}

impl<T> Model for Places<T> {
    ghost also_owns = { λ p. places_own T.row p.at p.capacity p.items };

    ghost also_shares = { λ p _ κ. places_lent T.row p.at p.capacity p.items κ };
}

unsafe impl<T: Send> Send for Places<T> {}

unsafe impl<T: Sync> Sync for Places<T> {}

/// The right to free the block of places. It is zero-sized.
pub struct Lease<T, A: Allocator> {
    mark: PhantomData<*const (T, A)>,
    ghost at: { Ptr },
    ghost capacity: { ℕ },
    ghost alloc: { A },
}

impl<T, A: Allocator> Model for Lease<T, A> {
    ghost also_owns = { λ l. lease_owns T.row (A.dealloc_token l.alloc) l.at l.capacity };

    ghost also_shares = { λ _ _ _. ftrue };
}

unsafe impl<T, A: Allocator + Send> Send for Lease<T, A> {}

// A `&` to it holds nothing.
unsafe impl<T, A: Allocator> Sync for Lease<T, A> {}

/// No places and no block.
pub(crate) fn nowhere<T, A: Allocator>(alloc: &A) -> (Start<T>, Places<T>, Lease<T, A>)
    ensures { (result.1.at ≡ result.0.ptr) × (result.1.capacity ≡ 0) × (result.1.items ≡ [])
        × (result.2.at ≡ result.0.ptr) × (result.2.capacity ≡ 0) × (result.2.alloc ≡ alloc.now) }
{
    let none: [T; 0] = [];
    let start = Start {
        ptr: &raw const none as *mut T,
    };
    (
        start,
        Places { mark: PhantomData },
        Lease { mark: PhantomData },
    )
}

/// Allocates a block with `capacity` places.
pub(crate) fn take_block<T, A: Allocator>(
    alloc: &A,
    capacity: usize,
) -> Result<(Start<T>, Places<T>, Lease<T, A>), AllocError>
    requires { FitsInBlock T.row capacity × (0 < capacity) }
    ensures { IfOk result
        (λ r. (r.1.at ≡ r.0.ptr) × (r.1.capacity ≡ capacity) × (r.1.items ≡ []) × (r.2.at ≡ r.0.ptr)
        × (r.2.capacity ≡ capacity) × (r.2.alloc ≡ alloc.now)) }
{
    match alloc.allocate(capacity * size_of::<T>(), align_of::<T>()) {
        Ok(block) => {
            let start = Start {
                ptr: block as *mut T,
            };
            Ok((
                start,
                Places { mark: PhantomData },
                Lease { mark: PhantomData },
            ))
        }
        Err(error) => Err(error),
    }
}

/// Frees the block, if there is one. The items are not dropped.
pub(crate) fn give_back<T, A: Allocator>(
    alloc: &A,
    start: Start<T>,
    capacity: usize,
    places: Places<T>,
    lease: Lease<T, A>,
)
    requires { (places.at ≡ start.ptr) × (places.capacity ≡ capacity)
        × (length places.items ≤ capacity) × (lease.at ≡ start.ptr) × (lease.capacity ≡ capacity)
        × (lease.alloc ≡ alloc.now) }
{
    let Places { mark: _ } = places;
    let Lease { mark: _ } = lease;
    if capacity != 0 {
        unsafe {
            alloc.deallocate(
                start.ptr as *mut u8,
                capacity * size_of::<T>(),
                align_of::<T>(),
            );
        }
    }
}

// The first items of a slice, or others where it has fewer. Which of the two is one move and no branch.
#[inline(always)]
fn first_of<'a, T, const N: usize>(src: &'a [T], others: &'a [T; N]) -> &'a [T; N]
    ensures { N ≤ length src.now → result.now ≡ take N src.now }
{
    match src.first_chunk::<N>() {
        Some(front) => front,
        None => others,
    }
}

impl<T> Places<T> {
    ghost use Rattle.bitcode_memory.specs.Places.{lends_front};

    /// Writes an item after the first `index` ones. Any later items are forgotten.
    pub(crate) fn write(&mut self, start: Start<T>, index: usize, item: T)
        requires { (start.ptr ≡ self.old.at) × (index ≤ length self.old.items)
            × (length self.old.items ≤ self.old.capacity) × (index < self.old.capacity) }
        ensures { (self.new.at ≡ self.old.at) × (self.new.capacity ≡ self.old.capacity)
            × (self.new.items ≡ take index self.old.items ++ item ∷ []) }
    {
        unsafe { start.ptr.add(index).write(item) }
    }

    /// Writes the items of a slice after the first `index` ones. Any later items are forgotten.
    ///
    /// A few items are written as two overlapping blocks whose size the compiler knows. A loop over them would be
    /// slower, because the processor mispredicts its number of rounds.
    #[inline(never)]
    pub(crate) fn write_all(&mut self, start: Start<T>, index: usize, src: &[T])
    where
        T: Copy,
        requires places { (start.ptr ≡ self.old.at) × (index ≤ length self.old.items)
            × (length self.old.items ≤ self.old.capacity) }
        requires room { (index + length src.now ≤ self.old.capacity)
            × (self.old.capacity < 2 ^ 63) }
        ensures places { (self.new.at ≡ self.old.at) × (self.new.capacity ≡ self.old.capacity) }
        ensures counts { (index + length src.now ≤ length self.new.items)
            × (length self.new.items ≤ self.new.capacity) }
        ensures items { take (index + length src.now) self.new.items ≡ take index self.old.items
            ++ src.now }
    {
        match src.len() {
            0..4 => self.write_each(start, index, src),
            4..8 => self.write_ends::<4>(start, index, src),
            8..16 => self.write_ends::<8>(start, index, src),
            16..33 => self.write_ends::<16>(start, index, src),
            _ => self.write_long(start, index, src),
        }
    }

    /// Writes fewer than 16 items after the first `index` ones, of which there are at least eight. Any later items are
    /// forgotten.
    ///
    /// It writes eight of them, then four, two and one. Where fewer are left, it writes a copy of the list's first
    /// items instead, and the next write overwrites them. So no branch depends on the count, which the processor would
    /// mispredict.
    #[inline(always)]
    pub(crate) fn write_short(&mut self, start: Start<T>, index: usize, src: &[T])
    where
        T: Copy,
        requires size { length src.now < 16 }
        requires places { (start.ptr ≡ self.old.at) × (8 ≤ index) × (index ≤ length self.old.items)
            × (length self.old.items ≤ self.old.capacity) }
        requires room { (index + 15 ≤ self.old.capacity) × (self.old.capacity < 2 ^ 63) }
        ensures places { (self.new.at ≡ self.old.at) × (self.new.capacity ≡ self.old.capacity) }
        ensures counts { (index + length src.now ≤ length self.new.items)
            × (length self.new.items ≤ self.new.capacity) }
        ensures items { take (index + length src.now) self.new.items ≡ take index self.old.items
            ++ src.now }
    {
        let eight = self.write_part::<8>(start, index, src);
        let (_, rest) = src.split_at(eight);
        let four = self.write_part::<4>(start, index + eight, rest);
        let (_, rest) = rest.split_at(four);
        let two = self.write_part::<2>(start, index + eight + four, rest);
        let (_, rest) = rest.split_at(two);
        self.write_part::<1>(start, index + eight + four + two, rest);
    }

    // Writes the first `N` items of a slice with fewer than twice as many, or `N` other items if it has fewer than `N`.
    // Returns how many items of the slice it wrote.
    #[inline(always)]
    fn write_part<const N: usize>(&mut self, start: Start<T>, index: usize, src: &[T]) -> usize
    where
        T: Copy,
        requires size { length src.now < N + N }
        requires places { (start.ptr ≡ self.old.at) × (N ≤ index) × (index ≤ length self.old.items)
            × (length self.old.items ≤ self.old.capacity) }
        requires room { (index + N ≤ self.old.capacity) × (self.old.capacity < 2 ^ 63) }
        ensures places { (self.new.at ≡ self.old.at) × (self.new.capacity ≡ self.old.capacity) }
        ensures counts { (index + result ≤ length self.new.items)
            × (length self.new.items ≤ self.new.capacity) }
        ensures left { (result ≤ N) × (result ≤ length src.now) × (length src.now < result + N) }
        ensures items { take (index + result) self.new.items ≡ take index self.old.items ++ take
            result src.now }
    {
        let block = *first_of(src, self.slice(start, N).first_chunk::<N>().unwrap());
        self.write_each(start, index, &block);
        if src.len() < N { 0 } else { N }
    }

    /// Writes fewer than 16 items after the first `index` ones. Any later items are forgotten.
    ///
    /// It writes one of them, then two, four and eight, for each bit that the count has. For the other bits it writes
    /// as many other items, which the next write overwrites. So no branch depends on the count, which the processor
    /// would mispredict.
    #[inline(always)]
    pub(crate) fn write_few(&mut self, start: Start<T>, index: usize, src: &[T], others: &[T; 8])
    where
        T: Copy,
        requires size { length src.now < 16 }
        requires places { (start.ptr ≡ self.old.at) × (index ≤ length self.old.items)
            × (length self.old.items ≤ self.old.capacity) }
        requires room { (index + 15 ≤ self.old.capacity) × (self.old.capacity < 2 ^ 63) }
        ensures places { (self.new.at ≡ self.old.at) × (self.new.capacity ≡ self.old.capacity) }
        ensures counts { (index + length src.now ≤ length self.new.items)
            × (length self.new.items ≤ self.new.capacity) }
        ensures items { take (index + length src.now) self.new.items ≡ take index self.old.items
            ++ src.now }
    {
        let (one, rest) = src.split_at(src.len() % 2);
        self.write_or::<1>(start, index, one, others);
        let (two, rest) = rest.split_at(rest.len() % 4);
        let index = index + one.len();
        self.write_or::<2>(start, index, two, others);
        let (four, eight) = rest.split_at(rest.len() % 8);
        let index = index + two.len();
        self.write_or::<4>(start, index, four, others);
        self.write_or::<8>(start, index + four.len(), eight, others);
    }

    // Writes `N` items, or as many others where the slice has none.
    #[inline(always)]
    fn write_or<const N: usize>(
        &mut self,
        start: Start<T>,
        index: usize,
        src: &[T],
        others: &[T; 8],
    )
    where
        T: Copy,
        requires number { N ≤ 8 }
        requires size { (length src.now ≡ N) ⊎ (length src.now ≡ 0) }
        requires places { (start.ptr ≡ self.old.at) × (index ≤ length self.old.items)
            × (length self.old.items ≤ self.old.capacity) }
        requires room { (index + N ≤ self.old.capacity) × (self.old.capacity < 2 ^ 63) }
        ensures places { (self.new.at ≡ self.old.at) × (self.new.capacity ≡ self.old.capacity) }
        ensures counts { (index + length src.now ≤ length self.new.items)
            × (length self.new.items ≤ self.new.capacity) }
        ensures items { take (index + length src.now) self.new.items ≡ take index self.old.items
            ++ src.now }
    {
        let block = *first_of(src, others.first_chunk::<N>().unwrap());
        self.write_each(start, index, &block);
    }

    /// Writes 16 to 64 items after the first `index` ones. Any later items are forgotten.
    ///
    /// It writes four blocks of 16, of which each begins where the one before ends, or earlier. So no branch depends on
    /// the count, which the processor would mispredict.
    #[inline(always)]
    pub(crate) fn write_blocks(&mut self, start: Start<T>, index: usize, src: &[T])
    where
        T: Copy,
        requires size { (16 ≤ length src.now) × (length src.now ≤ 64) }
        requires places { (start.ptr ≡ self.old.at) × (index ≤ length self.old.items)
            × (length self.old.items ≤ self.old.capacity) }
        requires room { (index + length src.now ≤ self.old.capacity)
            × (self.old.capacity < 2 ^ 63) }
        ensures places { (self.new.at ≡ self.old.at) × (self.new.capacity ≡ self.old.capacity) }
        ensures counts { (index + length src.now ≤ length self.new.items)
            × (length self.new.items ≤ self.new.capacity) }
        ensures items { take (index + length src.now) self.new.items ≡ take index self.old.items
            ++ src.now }
    {
        let last = src.len() - 16;
        self.write_block(start, index, src, 0);
        self.write_block(start, index, src, last.min(16));
        self.write_block(start, index, src, src.len().max(32) - 32);
        self.write_block(start, index, src, last);
    }

    // Writes 16 items of a slice, from the one at `from`, after those of the slice before them, which were written.
    #[inline(always)]
    fn write_block(&mut self, start: Start<T>, index: usize, src: &[T], from: usize)
    where
        T: Copy,
        requires size { from + 16 ≤ length src.now }
        requires places { (start.ptr ≡ self.old.at) × (index + from ≤ length self.old.items)
            × (length self.old.items ≤ self.old.capacity) }
        requires room { (index + length src.now ≤ self.old.capacity)
            × (self.old.capacity < 2 ^ 63) }
        ensures places { (self.new.at ≡ self.old.at) × (self.new.capacity ≡ self.old.capacity) }
        ensures counts { (index + (from + 16) ≤ length self.new.items)
            × (length self.new.items ≤ self.new.capacity) }
        ensures items { take (index + (from + 16)) self.new.items
            ≡ take (index + from) self.old.items ++ take 16 (drop from src.now) }
    {
        let (_, rest) = src.split_at(from);
        let block = *rest.first_chunk::<16>().unwrap();
        self.write_each(start, index + from, &block);
    }

    // Writes the items of a slice, at least 32 of them: those of whole blocks one by one, and then the last 32.
    fn write_long(&mut self, start: Start<T>, index: usize, src: &[T])
    where
        T: Copy,
        requires size { 32 ≤ length src.now }
        requires places { (start.ptr ≡ self.old.at) × (index ≤ length self.old.items)
            × (length self.old.items ≤ self.old.capacity) }
        requires room { (index + length src.now ≤ self.old.capacity)
            × (self.old.capacity < 2 ^ 63) }
        ensures places { (self.new.at ≡ self.old.at) × (self.new.capacity ≡ self.old.capacity) }
        ensures counts { (index + length src.now ≤ length self.new.items)
            × (length self.new.items ≤ self.new.capacity) }
        ensures items { take (index + length src.now) self.new.items ≡ take index self.old.items
            ++ src.now }
    {
        let (front, _) = src.split_at(src.len() / LONG * LONG);
        let back = *src.last_chunk::<LONG>().unwrap();
        self.write_each(start, index, front);
        self.write_each(start, index + (src.len() - LONG), &back);
    }

    // Writes the items of a slice, of which there are `N` to twice as many. Both blocks are read before the first is
    // written.
    fn write_ends<const N: usize>(&mut self, start: Start<T>, index: usize, src: &[T])
    where
        T: Copy,
        requires size { (N ≤ length src.now) × (length src.now ≤ N + N) }
        requires places { (start.ptr ≡ self.old.at) × (index ≤ length self.old.items)
            × (length self.old.items ≤ self.old.capacity) }
        requires room { (index + length src.now ≤ self.old.capacity)
            × (self.old.capacity < 2 ^ 63) }
        ensures places { (self.new.at ≡ self.old.at) × (self.new.capacity ≡ self.old.capacity) }
        ensures counts { (index + length src.now ≤ length self.new.items)
            × (length self.new.items ≤ self.new.capacity) }
        ensures items { take (index + length src.now) self.new.items ≡ take index self.old.items
            ++ src.now }
    {
        let front = *src.first_chunk::<N>().unwrap();
        let back = *src.last_chunk::<N>().unwrap();
        self.write_each(start, index, &front);
        self.write_each(start, index + (src.len() - N), &back);
    }

    // Writes the items of a slice one by one. It is inlined, so that the compiler knows how many they are.
    #[inline(always)]
    fn write_each(&mut self, start: Start<T>, index: usize, src: &[T])
    where
        T: Copy,
        requires places { (start.ptr ≡ self.old.at) × (index ≤ length self.old.items)
            × (length self.old.items ≤ self.old.capacity) }
        requires room { (index + length src.now ≤ self.old.capacity)
            × (self.old.capacity < 2 ^ 63) }
        ensures places { (self.new.at ≡ self.old.at) × (self.new.capacity ≡ self.old.capacity) }
        ensures counts { (index + length src.now ≤ length self.new.items)
            × (length self.new.items ≤ self.new.capacity) }
        ensures items { take (index + length src.now) self.new.items ≡ take index self.old.items
            ++ src.now }
    {
        for i in 0..src.len() {
            self.write(start, index + i, src[i]);
        }
    }

    /// The first `len` items.
    pub(crate) fn slice(&self, start: Start<T>, len: usize) -> &[T]
        requires { (start.ptr ≡ self.now.at) × (len ≤ length self.now.items)
            × (length self.now.items ≤ self.now.capacity) }
        ensures { result.now ≡ take len self.now.items }
    {
        unsafe { slice::from_raw_parts(start.ptr, len) }
    }

    /// The first `len` items, mutably. Any later items are forgotten.
    pub(crate) fn slice_mut(&mut self, start: Start<T>, len: usize) -> &mut [T]
        requires { (start.ptr ≡ self.old.at) × (len ≤ length self.old.items)
            × (length self.old.items ≤ self.old.capacity) }
        ensures* writes_back { sem 𝓛 (lends_front T.row self.entry len result) }
        ensures value { result.now ≡ take len self.old.items }
    {
        unsafe { slice::from_raw_parts_mut(start.ptr, len) }
    }
}
