//! The variants of enums: their encoder, their decoder, and encoding a payload.
#![tactic(auto, unfolding(crate::specs::Variants::written_variants, crate::specs::Variants::variant_room, crate::specs::Variants::variant_capacity, crate::specs::Variants::variants_left, crate::specs::Variants::variant_counts, crate::specs::Variants::variants_owned))]

ghost use Rattle.std.specs.Prelude.{◌≡◌, true, false, ◌+◌, ◌<◌, ◌≤◌, ◌++◌, [], ◌∷◌, length, map, slice_index, All};
ghost use Rattle.std.specs.Prelude.{IsTrue, ◌↔◌, IfOk, OnOk, IfErr, OnErr, IfSome};
ghost use Rattle.bitcode_memory.specs.Fast.{fast_items};
ghost use Rattle.bitcode_columns.specs.Histogram.{AreCounts};
ghost use Rattle.bitcode_columns.specs.Reading.{Reads, IsEndOf};
ghost use Rattle.bitcode_columns.specs.VariantColumn.{SpellsVariants, variant_text};
ghost use Rattle.bitcode_coder.specs.Columns.{variants, one, emptied};
ghost use Rattle.bitcode_coder.specs.Coder.{JoinsListing, OverflowsWithListing, JoinsEach, OverflowsWithEach};
ghost use Rattle.bitcode_coder.specs.Coder.{IsReadingRefusal, IsWritingRefusal};
ghost use Rattle.bitcode_coder.specs.Faults.{NamesVariantsFault};
ghost use Rattle.bitcode_coder.specs.ColumnFree.{free_count, saturated};
ghost use Rattle.bitcode_coder.specs.FirstFault.{IsFirstFault};
ghost use Rattle.bitcode_coder.specs.Spelling.{Spells, natural};
ghost use Rattle.bitcode_coder.specs.Strict.{JudgesData};

use bitcode_coder::coder::{
    Buffer, EncodeMany, Encoder, HoldsColumns, HoldsData, MAX_VECTORED_CHUNK, NewDecoder, View,
};
use bitcode_coder::column_free::ColumnFree;
use bitcode_coder::part::Behind;
use bitcode_columns::pack::pack_bytes_less_than;
use bitcode_columns::strict::read_variants;
use bitcode_memory::error::Error;
use bitcode_memory::fast::{CowSlice, FastVec, PushUnchecked};
use bitcode_shapes::lists::told_behind;
use bitcode_shapes::shaped::Shaped;
use std::alloc::Global;

/// The column of the variants of an enum with `N` variants, 2 to 256.
///
/// A variant is written as its index, 0 for the first.
///
/// ```
/// let mut variants = VariantEncoder::<3>::new(alloc);
/// variants.reserve(2)?;
/// variants.encode(2);
/// variants.encode(1);
/// variants.collect_into(&mut out)?; // [5]: the digits 2 and 1 in base 3
/// ```
#[derive(Drop)]
pub struct VariantEncoder<const N: usize> {
    variants: FastVec<u8>,
    ghost known: { All (λ variant. variant < N) (fast_items variants) },
}

impl<const N: usize> HoldsColumns for VariantEncoder<N> {
    ghost use Rattle.bitcode_parts.specs.Variants.{written_variants, variant_room, variant_capacity};

    ghost columns = { λ e. one (variants N) (map natural (written_variants e)) };

    ghost room = { variant_room };

    ghost capacity = { variant_capacity };

    ghost surely_overflows = { λ e n. ⊥ };

    ghost overflows = { λ e n. ⊥ };

    ghost writes_free = { true };
}

impl<const N: usize> Buffer for VariantEncoder<N> {
    fn new(alloc: Global) -> Self {
        VariantEncoder {
            variants: FastVec::new(alloc),
        }
    }

    fn reserve(&mut self, n: usize) -> Result<(), Error> {
        self.variants.reserve(n)
    }

    fn collect_into(&mut self, out: &mut Vec<u8>) -> Result<(), Error> {
        pack_bytes_less_than::<N>(self.variants.as_slice(), out)?;
        self.variants.clear();
        Ok(())
    }

    fn clear(&mut self) {
        self.variants.clear();
    }
}

impl<const N: usize> VariantEncoder<N> {
    ghost use Rattle.bitcode_parts.specs.Variants.{written_variants, variant_room};

    /// Adds a variant, which is below `N`. The caller must have reserved room for it.
    pub fn encode(&mut self, variant: u8)
        requires room { 0 < variant_room self.old }
        requires known { variant < N }
        ensures written { written_variants self.new ≡ written_variants self.old ++ variant ∷ [] }
        ensures room { variant_room self.new + 1 ≡ variant_room self.old }
    {
        self.variants.push_unchecked(variant);
    }

    /// Adds 1 to [`MAX_VECTORED_CHUNK`] variants, each below `N`. The caller must have reserved room for them.
    ///
    /// ```rust
    /// let mut variants = VariantEncoder::<3>::new(alloc);
    /// variants.reserve(2)?;
    /// variants.encode_vectored(&[2, 1]);
    /// ```
    pub fn encode_vectored(&mut self, several: &[u8])
        requires chunk { (0 < length several.now) × (length several.now ≤ MAX_VECTORED_CHUNK) }
        requires room { length several.now ≤ variant_room self.old }
        requires known { All (λ variant. variant < N) several.now }
        ensures written { written_variants self.new ≡ written_variants self.old ++ several.now }
        ensures room { variant_room self.old ≤ variant_room self.new + length several.now }
    {
        self.variants.extend_unchecked(several);
    }
}

/// The column from which the variants of an enum with `N` variants, 2 to 256, are read.
///
/// With `C_STYLE` false it counts the variants as it reads them, so that their payloads can be read next. An enum
/// without payloads needs no counts, and can use `C_STYLE` true.
///
/// ```rust
/// let mut input: &[u8] = &[5];
/// let mut variants = VariantDecoder::<3, false>::new(alloc);
/// variants.populate(&mut input, 3)?;
/// assert_eq!(rt; variants.length(2), 1);
/// assert_eq!(rt; variants.decode(), 2);
/// ```
#[derive(Drop)]
pub struct VariantDecoder<'a, const N: usize, const C_STYLE: bool> {
    alloc: Global,
    variants: CowSlice<'a, u8>,
    counts: [usize; N],
}

impl<'a, const N: usize, const C_STYLE: bool> VariantDecoder<'a, N, C_STYLE> {
    ghost use Rattle.bitcode_parts.specs.Variants.{variants_left, variant_counts, variants_owned};

    /// Creates an empty decoder without allocating.
    pub fn new(alloc: Global) -> Self
        ensures left { variants_left result ≡ [] }
        ensures counts { AreCounts N [] (variant_counts result) }
        ensures owned { variants_owned result ≡ 0 }
    {
        VariantDecoder {
            alloc,
            variants: CowSlice::new(alloc),
            counts: [0; N],
        }
    }

    /// Reads `k` variants from the front of the input.
    ///
    /// If bytes are missing, the error is `EOF`; if a variant is not below `N`, `invalid packing`; if an allocation
    /// fails, `out of memory`. With 17 variants or more it does not allocate.
    pub fn populate(&mut self, input: &mut &'a [u8], k: usize) -> Result<(), Error>
        ensures read { OnOk result
            (Reads (SpellsVariants N) k input.old.now (variants_left self.new) input.new.now) }
        ensures counts { OnOk result
            (C_STYLE ≡ false → AreCounts N (variants_left self.new) (variant_counts self.new)) }
        ensures refused { IfErr result (λ e. NamesVariantsFault N e.reason k input.old.now) }
        ensures rest { OnErr result (IsEndOf input.old.now input.new.now) }
    {
        self.read(input, k, false)?;
        Ok(())
    }

    /// Reads `k` variants as [`VariantDecoder::populate`] does. If `strict`, it returns whether their bytes are those
    /// that would be written for them. Otherwise the returned bool has no meaning.
    pub fn read(&mut self, input: &mut &'a [u8], k: usize, strict: bool) -> Result<bool, Error>
        ensures read { OnOk result
            (Reads (SpellsVariants N) k input.old.now (variants_left self.new) input.new.now) }
        ensures judged { IsTrue strict → IfOk result
            (λ written. IsTrue written
            ↔ (input.old.now ≡ variant_text N (variants_left self.new) ++ input.new.now)) }
        ensures counts { OnOk result
            (C_STYLE ≡ false → AreCounts N (variants_left self.new) (variant_counts self.new)) }
        ensures refused { IfErr result (λ e. NamesVariantsFault N e.reason k input.old.now) }
        ensures rest { OnErr result (IsEndOf input.old.now input.new.now) }
    {
        if C_STYLE {
            let ([], written) = read_variants::<N, 0>(
                self.alloc,
                input,
                k,
                &mut self.variants,
                strict,
            )?;
            Ok(written)
        } else {
            let (counts, written) = read_variants::<N, N>(
                self.alloc,
                input,
                k,
                &mut self.variants,
                strict,
            )?;
            self.counts = counts;
            Ok(written)
        }
    }

    /// Reads `k` variants as [`VariantDecoder::populate`] does, and returns whether their bytes are those that would be
    /// written for them.
    ///
    /// ```rust
    /// let mut input: &[u8] = &[5];
    /// let mut variants = VariantDecoder::<3, false>::new(alloc);
    /// assert!(rt; variants.populate_strict(&mut input, 3)?);
    /// assert_eq!(rt; variants.length(2), 1);
    /// ```
    pub fn populate_strict(&mut self, input: &mut &'a [u8], k: usize) -> Result<bool, Error>
        ensures read { OnOk result
            (Reads (SpellsVariants N) k input.old.now (variants_left self.new) input.new.now) }
        ensures strict { IfOk result
            (λ written. IsTrue written
            ↔ (input.old.now ≡ variant_text N (variants_left self.new) ++ input.new.now)) }
        ensures counts { OnOk result
            (C_STYLE ≡ false → AreCounts N (variants_left self.new) (variant_counts self.new)) }
        ensures refused { IfErr result (λ e. NamesVariantsFault N e.reason k input.old.now) }
        ensures rest { OnErr result (IsEndOf input.old.now input.new.now) }
    {
        self.read(input, k, true)
    }

    /// The number of variants `i` among all that were read, including those already taken.
    pub fn length(&self, i: usize) -> usize
        requires counted { C_STYLE ≡ false }
        requires known { i < N }
        ensures { result ≡ slice_index (variant_counts self.now) i }
    {
        self.counts[i]
    }

    /// The number of each variant, by index, among all that were read, including those already taken.
    pub fn counts(&self) -> &[usize]
        requires counted { C_STYLE ≡ false }
        ensures { result.now ≡ variant_counts self.now }
    {
        &self.counts
    }

    /// Takes the next variant. At least one must be left.
    pub fn decode(&mut self) -> u8
        requires { 0 < length (variants_left self.old) }
        ensures taken { variants_left self.old ≡ result ∷ variants_left self.new }
        ensures counts { variant_counts self.new ≡ variant_counts self.old }
    {
        self.variants.next_unchecked()
    }
}

// The data of an enum whose variants all lack a payload.
impl<'a, const N: usize, const C_STYLE: bool> HoldsData for VariantDecoder<'a, N, C_STYLE> {
    ghost use Rattle.bitcode_shapes.specs.BareVariants.{bare_shape};
    ghost use Rattle.bitcode_parts.specs.BareVariants.{bare_choices};
    ghost use Rattle.bitcode_parts.specs.Variants.{variants_left, variants_owned};

    ghost shape = { bare_shape N };

    ghost held = { λ d. bare_choices N (variants_left d) };

    ghost owned = { variants_owned };

    ghost free_inside = { λ d. 0 };
}

impl<'a, const N: usize, const C_STYLE: bool> NewDecoder for VariantDecoder<'a, N, C_STYLE> {
    fn new(alloc: Global) -> Self {
        VariantDecoder::new(alloc)
    }

    fn column_free(&self) -> ColumnFree {
        ColumnFree::entries()
    }
}

impl<'a, const N: usize, const C_STYLE: bool> View<'a> for VariantDecoder<'a, N, C_STYLE> {
    ghost use Rattle.bitcode_shapes.specs.BareVariants.{bare_shape};
    ghost use Rattle.bitcode_parts.specs.BareVariants.{bare_choices};
    ghost use Rattle.bitcode_parts.specs.Variants.{variants_left, variant_counts};

    fn read(&mut self, input: &mut &'a [u8], k: usize, strict: bool) -> Result<bool, Error>
        ensures read { OnOk result
            (Reads (Spells (bare_shape N)) k input.old.now (bare_choices N (variants_left self.new))
            input.new.now) }
        ensures counted { OnOk result
            (saturated 0 ≡ saturated (free_count (bare_shape N)
            (bare_choices N (variants_left self.new)))) }
        ensures judged { IsTrue strict → IfOk result
            (λ written. JudgesData (bare_shape N) (bare_choices N (variants_left self.new)) written
            input.old.now
            input.new.now) }
        ensures refused { IfErr result
            (λ e. IsReadingRefusal (bare_shape N) e.reason k input.old.now) }
        ensures exact { IfErr result (λ e. IsFirstFault (bare_shape N) e.reason k input.old.now) }
        ensures rest { OnErr result (IsEndOf input.old.now input.new.now) }
        ensures counts { OnOk result
            (C_STYLE ≡ false → AreCounts N (variants_left self.new) (variant_counts self.new)) }
    {
        self.read(input, k, strict)
    }
}

/// Reads one variant of an enum with `N` variants, 2 to 256, from the front of the input.
///
/// The contract promises nothing of `None`: it is returned if the read fails.
///
/// ```rust
/// use bitcode_parts::choices::variant::read_variant;
///
/// let mut input: &[u8] = &[5];
/// assert_eq!(rt; read_variant::<3>(alloc, &mut input), Some(2));
/// ```
#[inline(always)]
pub fn read_variant<const N: usize>(alloc: Global, input: &mut &[u8]) -> Option<u8>
    ensures { IfSome result
        (λ variant. Reads (SpellsVariants N) 1 input.old.now (variant ∷ []) input.new.now) }
{
    let mut variants = CowSlice::new(alloc);
    let Ok(_) = read_variants::<N, 0>(alloc, input, 1, &mut variants, false) else {
        return None;
    };
    Some(variants.next_unchecked())
}

/// Reserves room for the payload of a variant, and adds the payload to its columns.
///
/// The number of payloads of each variant is not known in advance. So the encoder of an enum reserves room only for the
/// variants.
///
/// ```rust
/// let mut some: IntEncoder<u8> = IntEncoder::new(alloc);
/// encode_payload(&mut some, &7)?;
/// ```
pub fn encode_payload<T: Shaped, E: Buffer + Encoder<T>>(
    encoder: &mut E,
    t: &T,
) -> Result<(), Error>
    ensures joined { OnOk result
        (JoinsListing T.data.lists T.data.shape t.now (E.columns encoder.old)
        (E.columns encoder.new)) }
    ensures form { emptied (E.columns encoder.new) ≡ emptied (E.columns encoder.old) }
    ensures refused { IfErr result
        (λ e. IsWritingRefusal e.reason
        (OverflowsWithListing T.data.lists T.data.shape t.now (E.columns encoder.old))) }
{
    t.told();
    encoder.reserve(1)?;
    encoder.encode(t)
}

/// Reserves room for 1 to [`MAX_VECTORED_CHUNK`] payloads of a variant, and adds them to its columns.
///
/// ```rust
/// let mut some: IntEncoder<u8> = IntEncoder::new(alloc);
/// encode_payloads(&mut some, &[&7, &8])?;
/// ```
pub fn encode_payloads<T: Shaped, E: Buffer + EncodeMany<T>>(
    encoder: &mut E,
    several: &[&T],
) -> Result<(), Error>
    requires { (0 < length several.now) × (length several.now ≤ MAX_VECTORED_CHUNK) }
    ensures joined { OnOk result
        (JoinsEach T.data.lists T.data.shape (map (λ t. t.now) several.now) (E.columns encoder.old)
        (E.columns encoder.new)) }
    ensures form { emptied (E.columns encoder.new) ≡ emptied (E.columns encoder.old) }
    ensures refused { IfErr result
        (λ e. IsWritingRefusal e.reason
        (OverflowsWithEach T.data.lists T.data.shape (map (λ t. t.now) several.now)
        (E.columns encoder.old))) }
{
    told_behind(several);
    encoder.reserve(several.len())?;
    encoder.encode_part_of_each(several, &Behind, several[0])
}
