//! The decoder of variant indices.
#![tactic(auto, using(crate::proofs::IndexLemmas::indices_refused), unfolding(crate::specs::Indices::indices_left, crate::specs::Indices::indices_owned, crate::specs::Indices::index_count))]

ghost use Rattle.std.specs.Prelude.{get_or, pos, ◌≡◌, ℕ, ◌<◌, ◌≤◌, [], length, true, false, refl, IsTrue, IsOk};
ghost use Rattle.std.specs.Prelude.{◌++◌, ◌↔◌, map, IfOk, OnOk, IfErr, OnErr, MatchOption};
ghost use Rattle.bitcode_columns.specs.Histogram.{count_of as count_of_number};
ghost use Rattle.bitcode_memory.specs.Fast.{cow_rest};
ghost use Rattle.bitcode_columns.specs.Reading.{Reads, IsEndOf};
ghost use Rattle.bitcode_coder.specs.FirstFault.{IsFirstFault};
ghost use Rattle.bitcode_shapes.specs.Ints.{int_shape, MakesNumber};
ghost use Rattle.bitcode_coder.specs.Spelling.{Spells};
ghost use Rattle.bitcode_coder.specs.Coder.{IsReadingRefusal, TakesDatum};
ghost use Rattle.bitcode_coder.specs.Strict.{JudgesData, StrictlySpells};
ghost use Rattle.bitcode_coder.specs.ColumnFree.{free_count, saturated};
ghost use Rattle.bitcode_untyped.specs.Population.{count_of};

use bitcode_coder::coder::{Decoder, HoldsData, NewDecoder, View};
use bitcode_coder::column_free::ColumnFree;
use bitcode_columns::histogram::histogram;
use bitcode_columns::strict::read_bytes;
use bitcode_memory::error::{Error, Reason};
use bitcode_memory::fast::CowSlice;
use bitcode_memory::ints::known_bytes;
use std::alloc::Global;

/// The column from which variant indices are read, for any number of variants: a column of bytes.
///
/// It counts the indices when it reads many of them, and otherwise when it is asked, so that the payloads of each
/// variant can be read next. The counts take at most 8 bytes per index.
///
/// ```rust
/// use bitcode::serde::VariantDecoder;
///
/// let mut input: &[u8] = &[8, 20]; // 2, 0 and 2
/// let mut indices = VariantDecoder::new(alloc);
/// indices.populate(&mut input, 3)?;
/// assert_eq!(rt; indices.length(2), 2);
/// assert_eq!(rt; indices.max_variant_index(), Some(2));
/// ```
#[derive(Drop)]
pub struct VariantDecoder<'a> {
    alloc: Global,
    // all that were read
    indices: CowSlice<'a, u8>,
    // how many of them were taken
    position: usize,
    // the counts of the smallest indices
    counts: Vec<usize>,

    ghost counted: { (index : ℕ) → index < length counts.items
        → get_or counts.items index 0 ≡ count_of_number index (cow_rest indices) },
    ghost inside: { position ≤ length (cow_rest indices) },
}

// Fewer indices than this are counted when that is asked.
const FEW: usize = 16;

// The greatest of the bytes, or 0.
fn greatest(bytes: &[u8]) -> u8 {
    let mut most = 0;
    for byte in bytes {
        most = (*byte).max(most);
    }
    most
}

// The counts of the smallest bytes: of all, if these are many and the counts take at most 8 bytes for each, or of none.
fn counts_of(alloc: Global, bytes: &[u8]) -> Vec<usize>
    ensures { (index : ℕ) → index < length result.items
        → get_or result.items index 0 ≡ count_of_number index bytes.now }
{
    let last = greatest(bytes) as usize;
    let mut kept = Vec::new(alloc);
    if bytes.len() < FEW || bytes.len() <= last {
        return kept;
    }
    let counts = histogram(bytes);
    match kept.extend_from_slice(&counts[..last + 1]) {
        Ok(()) => kept,
        Err(_) => Vec::new(alloc),
    }
}

// How often a byte occurs.
#[cold]
#[inline(never)]
fn count(bytes: &[u8], index: u8) -> usize
    ensures { result ≡ count_of_number index bytes.now }
{
    bytes.iter().filter(|byte| **byte == index).count()
}

impl<'a> HoldsData for VariantDecoder<'a> {
    ghost use Rattle.bitcode_serde.specs.Indices.{indices_left, indices_owned};

    ghost shape = { int_shape 1 false };

    ghost held = { indices_left };

    ghost owned = { indices_owned };

    ghost free_inside = { λ d. 0 };
}

impl<'a> NewDecoder for VariantDecoder<'a> {
    ghost use Rattle.bitcode_serde.specs.Indices.{indices_left, indices_owned, index_count};

    fn new(alloc: Global) -> Self
        ensures held { indices_left result ≡ [] }
        ensures owned { indices_owned result ≡ 0 }
        ensures counts { (index : ℕ) → index < 256 → index_count result index ≡ 0 }
    {
        VariantDecoder {
            alloc,
            indices: CowSlice::new(alloc),
            position: 0,
            counts: Vec::new(alloc),
        }
    }

    fn column_free(&self) -> ColumnFree {
        ColumnFree::entries()
    }
}

impl<'a> View<'a> for VariantDecoder<'a> {
    ghost use Rattle.bitcode_serde.specs.Indices.{indices_left, index_count};

    /// Reads `k` indices from the front of the input, and counts them.
    ///
    /// If bytes are missing, the error is `EOF`; for an unknown tag `invalid packing`; if an allocation fails,
    /// `out of memory`.
    fn read(&mut self, input: &mut &'a [u8], k: usize, strict: bool) -> Result<bool, Error>
        ensures read { OnOk result
            (Reads (Spells (int_shape 1 false)) k input.old.now (indices_left self.new)
            input.new.now) }
        ensures counted { OnOk result
            (saturated 0 ≡ saturated (free_count (int_shape 1 false) (indices_left self.new))) }
        ensures judged { IsTrue strict → IfOk result
            (λ written. JudgesData (int_shape 1 false) (indices_left self.new) written input.old.now
            input.new.now) }
        ensures refused { IfErr result
            (λ e. IsReadingRefusal (int_shape 1 false) e.reason k input.old.now) }
        ensures rest { OnErr result (IsEndOf input.old.now input.new.now) }
        ensures exact { IfErr result
            (λ e. IsFirstFault (int_shape 1 false) e.reason k input.old.now) }
        ensures counts { OnOk result
            ((index : ℕ) → index < 256 → index_count self.new index ≡ count_of index
            (indices_left self.new)) }
    {
        self.position = 0;
        self.counts.clear();
        let written = read_bytes::<u8>(self.alloc, input, k, &mut self.indices, strict)?;
        let bytes = self.indices.as_slice();
        known_bytes(bytes);
        self.counts = counts_of(self.alloc, bytes);
        Ok(written)
    }
}

impl<'a> Decoder<u8> for VariantDecoder<'a> {
    ghost use Rattle.bitcode_serde.specs.Indices.{indices_left, index_count};

    ghost makes_free = { true };

    /// Takes the next index. At least one must be left.
    fn decode(&mut self) -> Result<u8, Error>
        requires { 0 < length (indices_left self.old) }
        ensures made { IfOk result
            (λ index. TakesDatum (MakesNumber (λ n. pos n)) index (indices_left self.old)
            (indices_left self.new)) }
        ensures refused { IfErr result (λ e. e.reason ≡ Reason.OutOfMemory) }
        ensures free { IsTrue true → IsOk result }
        ensures counts { (index : ℕ) → index_count self.new index ≡ index_count self.old index }
    {
        let index = self.indices.as_slice()[self.position];
        self.position += 1;
        Ok(index)
    }

    ghost same_shape = { refl };
}

impl<'a> VariantDecoder<'a> {
    ghost use Rattle.bitcode_coder.specs.Spelling.{natural};
    ghost use Rattle.bitcode_serde.specs.Indices.{indices_left, index_count};

    /// Reads `k` indices from the front of the input, and counts them.
    ///
    /// If bytes are missing, the error is `EOF`; for an unknown tag `invalid packing`; if an allocation fails,
    /// `out of memory`.
    ///
    /// ```
    /// indices.populate(&mut input, 3)?; // of [8, 20]: 2, 0 and 2
    /// ```
    pub fn populate(&mut self, input: &mut &'a [u8], k: usize) -> Result<(), Error>
        ensures read { OnOk result
            (Reads (Spells (int_shape 1 false)) k input.old.now (indices_left self.new)
            input.new.now) }
        ensures refused { IfErr result
            (λ e. IsReadingRefusal (int_shape 1 false) e.reason k input.old.now) }
        ensures rest { OnErr result (IsEndOf input.old.now input.new.now) }
        ensures exact { IfErr result
            (λ e. IsFirstFault (int_shape 1 false) e.reason k input.old.now) }
        ensures counts { OnOk result
            ((index : ℕ) → index < 256 → index_count self.new index ≡ count_of index
            (indices_left self.new)) }
    {
        self.read(input, k, false)?;
        Ok(())
    }

    /// Reads `k` indices as [`VariantDecoder::populate`] does, and counts them. It returns whether their bytes are
    /// those that would be written for them.
    ///
    /// ```rust
    /// let mut input: &[u8] = &[8, 20]; // 2, 0 and 2
    /// let mut indices = VariantDecoder::new(alloc);
    /// assert!(rt; indices.populate_strict(&mut input, 3)?);
    /// assert_eq!(rt; indices.length(2), 2);
    /// ```
    pub fn populate_strict(&mut self, input: &mut &'a [u8], k: usize) -> Result<bool, Error>
        ensures read { OnOk result
            (Reads (Spells (int_shape 1 false)) k input.old.now (indices_left self.new)
            input.new.now) }
        ensures strict { IfOk result
            (λ written. IsTrue written
            ↔ Reads (StrictlySpells (int_shape 1 false)) k input.old.now (indices_left self.new)
            input.new.now) }
        ensures refused { IfErr result
            (λ e. IsReadingRefusal (int_shape 1 false) e.reason k input.old.now) }
        ensures rest { OnErr result (IsEndOf input.old.now input.new.now) }
        ensures exact { IfErr result
            (λ e. IsFirstFault (int_shape 1 false) e.reason k input.old.now) }
        ensures counts { OnOk result
            ((index : ℕ) → index < 256 → index_count self.new index ≡ count_of index
            (indices_left self.new)) }
    {
        self.read(input, k, true)
    }

    /// How often this index was read, including entries that were already taken. For an index that was never read it is
    /// 0.
    ///
    /// ```rust
    /// let mut input: &[u8] = &[8, 20]; // 2, 0 and 2
    /// let mut indices = VariantDecoder::new(alloc);
    /// indices.populate(&mut input, 3)?;
    /// assert_eq!(rt; indices.length(2), 2);
    /// assert_eq!(rt; indices.length(7), 0);
    /// ```
    pub fn length(&self, index: u8) -> usize
        ensures { result ≡ index_count self.now index }
    {
        match self.counts.get(index as usize) {
            Some(count) => *count,
            None => count(self.indices.as_slice(), index),
        }
    }

    // Takes so many of the next indices. So many are left.
    pub(crate) fn take(&mut self, count: usize) -> Result<Vec<u8>, Error>
        requires { count ≤ length (indices_left self.old) }
        ensures taken { IfOk result
            (λ bytes. indices_left self.old ≡ map natural bytes.items ++ indices_left self.new) }
        ensures size { IfOk result (λ bytes. length bytes.items ≡ count) }
        ensures counts { (index : ℕ) → index_count self.new index ≡ index_count self.old index }
        ensures refused { IfErr result (λ e. e.reason ≡ Reason.OutOfMemory) }
    {
        let mut taken = Vec::new(self.alloc);
        let all = self.indices.as_slice();
        let end = self.position + count;
        taken.extend_from_slice(&all[self.position..end])?;
        self.position = end;
        Ok(taken)
    }

    /// The greatest index that was read, including those already taken, or `None` if there is none.
    ///
    /// ```rust
    /// let mut input: &[u8] = &[8, 20]; // 2, 0 and 2
    /// let mut indices = VariantDecoder::new(alloc);
    /// indices.populate(&mut input, 3)?;
    /// assert_eq!(rt; indices.max_variant_index(), Some(2));
    /// ```
    pub fn max_variant_index(&self) -> Option<u8>
        ensures { MatchOption result
            ((index : ℕ) → index < 256 → index_count self.now index ≡ 0)
            (λ greatest. (0 < index_count self.now greatest)
            × ((index : ℕ) → greatest < index → index < 256 → index_count self.now index ≡ 0)) }
    {
        let counts = histogram(self.indices.as_slice());
        for index in (0..256).rev() {
            if counts[index] > 0 {
                return Some(index as u8);
            }
        }
        None
    }
}
