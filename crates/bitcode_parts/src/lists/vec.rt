//! The coders of sequences: the lengths of all sequences, followed by the columns of all elements.
#![tactic(auto, unfolding(bitcode_coder::specs::Length::lengths_left, bitcode_coder::specs::Length::lengths_sum))]

ghost use Rattle.std.specs.Prelude.{◌≡◌, ◌+◌, ◌*◌, ◌<◌, ◌≤◌, [], None, length, map, take, false, IfOk, OnOk, IfErr};
ghost use Rattle.std.specs.Prelude.{IsTrue, IfSome, OnErr};
ghost use Rattle.std.proofs.Common.{sym, ap, ◌∙◌};
ghost use Rattle.bitcode_columns.specs.Reading.{Reads, IsEndOf};
ghost use Rattle.bitcode_shapes.specs.Shape.{seq_shape};
ghost use Rattle.bitcode_coder.specs.Coder.{JoinsEach, OverflowsWithEach, IsWritingRefusal, TakesDatum};
ghost use Rattle.bitcode_coder.specs.Coder.{IsReadingRefusal, ReadsValue};
ghost use Rattle.bitcode_coder.specs.Spelling.{Spells};
ghost use Rattle.bitcode_coder.specs.Strict.{JudgesData};
ghost use Rattle.bitcode_coder.specs.Transposition.{joined};
ghost use Rattle.bitcode_coder.specs.FirstFault.{IsFirstFault};
ghost use Rattle.bitcode_coder.specs.ColumnFree.{has_entry, count_if_free, free_count, saturated};
ghost use Rattle.bitcode_coder.specs.Columns.{emptied, lengths, one, two};
ghost use Rattle.bitcode_coder.specs.Length.{written_lengths, length_room, lengths_left, length_capacity};
ghost use Rattle.bitcode_coder.specs.Length.{lengths_owned, lengths_sum};
ghost use Rattle.bitcode_parts.specs.Lists.{lists_of, list_columns};

use crate::lists::sequence::{FromElements, Sequence, decode_each};
use bitcode_coder::coder::{
    Buffer, Decoder, EncodeMany, Encoder, HoldsColumns, HoldsData, MAX_VECTORED_CHUNK, NewDecoder,
    View, both, encode_parts,
};
use bitcode_coder::column_free::ColumnFree;
use bitcode_coder::length::{LengthDecoder, LengthEncoder};
use bitcode_coder::part::{Part, told_parts};
use bitcode_memory::error::{Error, Reason};
use bitcode_shapes::shaped::Shaped;
use std::alloc::Global;
use std::collections::{LinkedList, VecDeque};
use std::mem::replace;

/// The encoder of sequences: a column of lengths, followed by the columns of all elements.
///
/// It writes the elements with their encoder, front to back, and returns that encoder's errors.
///
/// ```rust
/// let list = vec![in alloc; 1u8, 2, 3]?;
/// let mut lists: VecEncoder<IntEncoder<u8>> = VecEncoder::new(alloc);
/// lists.reserve(1)?;
/// lists.encode(&list)?;
/// assert_eq!(rt; lists.collect(alloc)?.as_slice(), [3, 6, 57].as_slice());
/// ```
#[derive(Drop)]
pub struct VecEncoder<E> {
    alloc: Global,
    lengths: LengthEncoder,
    elements: E,
}

// Lengths behind those that were there, and of how many sequences they are.
struct Pushed {
    lengths: LengthEncoder,
    count: usize,
}

// Writes the sequence that is a part of each item, up to the first one of 16 elements or more. Room for them was
// reserved. The list of lengths is passed by value and returned: through a reference, each sequence would load and
// store its length.
fn push_short<I, S: Sequence, W: Part<I, S>, E: EncodeMany<S::Element>>(
    mut sizes: LengthEncoder,
    elements: &mut E,
    items: &[I],
    which: &W,
) -> Result<Pushed, Error>
    requires sizes { length items.now ≤ length_room sizes }
    requires elements { 15 * length items.now ≤ E.room elements.old }
    ensures count { IfOk result (λ p. p.count ≤ length items.now) }
    ensures joined { IfOk result
        (λ p. JoinsEach S.data.lists S.data.shape (map (W.of which.now) (take p.count items.now))
        (list_columns (written_lengths sizes) (E.columns elements.old))
        (list_columns (written_lengths p.lengths) (E.columns elements.new))) }
    ensures room { IfOk result (λ p. length_room sizes ≡ length_room p.lengths + p.count) }
    ensures form { emptied (E.columns elements.new) ≡ emptied (E.columns elements.old) }
    ensures refused { IfErr result (λ e. IsWritingRefusal e.reason
        (OverflowsWithEach S.data.lists S.data.shape (map (W.of which.now) items.now)
        (list_columns (written_lengths sizes) (E.columns elements.old)))) }
{
    told_parts(items, which);
    let mut count = 0usize;
    for item in items {
        let sequence = which.part(item);
        let size = sequence.element_count();
        if size >= 16 {
            break;
        }
        sequence.told();
        sequence.encode_elements(elements)?;
        sizes.encode_less_than_255(size);
        count += 1;
    }
    Ok(Pushed {
        lengths: sizes,
        count,
    })
}

impl<E> VecEncoder<E> {
    // Writes the sequence that is a part of each item, up to the first one of 16 elements or more. Room for the lengths
    // was reserved. Returns how many were written: none if there is no room for so many elements.
    fn encode_short<I, S: Sequence, W: Part<I, S>>(
        &mut self,
        items: &[I],
        which: &W,
    ) -> Result<usize, Error>
    where
        E: Buffer + EncodeMany<S::Element>,
        requires chunk { length items.now ≤ MAX_VECTORED_CHUNK }
        requires room { length items.now ≤ length_room self.old.lengths }
        ensures count { IfOk result (λ n. n ≤ length items.now) }
        ensures joined { IfOk result
            (λ n. JoinsEach S.data.lists S.data.shape (map (W.of which.now) (take n items.now))
            (list_columns (written_lengths self.old.lengths) (E.columns self.old.elements))
            (list_columns (written_lengths self.new.lengths) (E.columns self.new.elements))) }
        ensures room { IfOk result
            (λ n. length_room self.old.lengths ≤ length_room self.new.lengths + n) }
        ensures form { emptied (E.columns self.new.elements) ≡ emptied
            (E.columns self.old.elements) }
        ensures refused { IfErr result (λ e. IsWritingRefusal e.reason
            (OverflowsWithEach S.data.lists S.data.shape (map (W.of which.now) items.now)
            (list_columns (written_lengths self.old.lengths) (E.columns self.old.elements)))) }
    {
        if self.elements.reserve(15 * items.len()).is_err() {
            return Ok(0);
        }
        let sizes = replace(&mut self.lengths, LengthEncoder::new(self.alloc));
        let Pushed { lengths, count } = push_short::<I, S, W, E>(
            sizes,
            &mut self.elements,
            items,
            which,
        )?;
        self.lengths = lengths;
        Ok(count)
    }
}

impl<E: HoldsColumns> HoldsColumns for VecEncoder<E> {
    ghost columns = { λ e. list_columns (written_lengths e.lengths) (E.columns e.elements) };

    ghost room = { λ e. length_room e.lengths };

    ghost capacity = { λ e. length_capacity e.lengths + E.capacity e.elements };

    ghost surely_overflows = { λ e n. ⊥ };

    ghost overflows = { λ e n. ⊥ };

    ghost writes_free = { false };
}

impl<E: Buffer> Buffer for VecEncoder<E> {
    fn new(alloc: Global) -> Self {
        VecEncoder {
            alloc,
            lengths: LengthEncoder::new(alloc),
            elements: E::new(alloc),
        }
    }

    fn reserve(&mut self, n: usize) -> Result<(), Error> {
        self.lengths.reserve(n)
    }

    fn collect_into(&mut self, out: &mut Vec<u8>) -> Result<(), Error> {
        self.lengths.collect_into(out)?;
        self.elements.collect_into(out)
    }

    fn clear(&mut self) {
        self.lengths.clear();
        self.elements.clear();
    }
}

impl<S: Sequence, E: Buffer + EncodeMany<S::Element>> Encoder<S> for VecEncoder<E> {
    fn encode(&mut self, t: &S) -> Result<(), Error> {
        t.told();
        let count = t.element_count();
        self.elements.reserve(count)?;
        self.lengths.encode(count)?;
        t.encode_elements(&mut self.elements)
    }

    fn write_directly(&mut self, t: &S, out: &mut Vec<u8>) -> Result<bool, Error> {
        t.told();
        let count = t.element_count();
        self.lengths.write_one(count, out)?;
        if t.write_elements(&self.elements, out)? {
            return Ok(true);
        }
        self.elements.reserve(count)?;
        t.encode_elements(&mut self.elements)?;
        self.elements.collect_into(out)?;
        Ok(true)
    }

    ghost of_shape = { λ e. ap (two (one (lengths None) [])) (E.of_shape e.elements) ∙ sym
        (S.items_columns []) };

    ghost surely = { λ e n never. absurd never };
}

impl<S: Sequence, E: Buffer + EncodeMany<S::Element>> EncodeMany<S> for VecEncoder<E> {
    fn encode_part_of_each<I, W: Part<I, S>>(
        &mut self,
        items: &[I],
        which: &W,
        _first: &S,
    ) -> Result<(), Error> {
        if !E::is_primitive() {
            return encode_parts(self, items, which);
        }
        let done = self.encode_short(items, which)?;
        encode_parts(self, &items[done..], which)
    }

    ghost of_shape = { λ e. ap (two (one (lengths None) [])) (E.of_shape e.elements) ∙ sym
        (S.items_columns []) };

    ghost surely = { λ e n never. absurd never };
}

/// The decoder of sequences. It reads the lengths of all of them, and then the elements of all of them.
///
/// It makes the elements with their decoder, front to back, and returns that decoder's errors.
///
/// ```
/// let mut lists: VecDecoder<IntDecoder<u8>> = VecDecoder::new(alloc);
/// lists.populate(&mut input, 1)?;      // [3, 6, 57]
/// let list: Vec<u8> = lists.decode()?; // 1, 2 and 3
/// ```
#[derive(Drop)]
pub struct VecDecoder<'a, D> {
    alloc: Global,
    lengths: LengthDecoder<'a>,
    elements: D,
}

impl<'a, D: HoldsData> HoldsData for VecDecoder<'a, D> {
    ghost shape = { seq_shape None D.shape };

    ghost held = { λ d. lists_of (lengths_left d.lengths) (D.held d.elements) };

    ghost owned = { λ d. lengths_owned d.lengths + D.owned d.elements };

    ghost free_inside = { λ d. count_if_free (has_entry D.shape) (lengths_sum d.lengths)
        + D.free_inside d.elements };
}

impl<'a, D: NewDecoder> NewDecoder for VecDecoder<'a, D> {
    fn new(alloc: Global) -> Self {
        VecDecoder {
            alloc,
            lengths: LengthDecoder::new(alloc),
            elements: D::new(alloc),
        }
    }

    fn column_free(&self) -> ColumnFree {
        ColumnFree {
            has_entry: true,
            inside: self.elements.column_free().in_lists(self.lengths.length()),
        }
    }
}

impl<'a, D: View<'a>> View<'a> for VecDecoder<'a, D> {
    fn read(&mut self, input: &mut &'a [u8], k: usize, strict: bool) -> Result<bool, Error>
        ensures read { OnOk result
            (Reads (Spells (seq_shape None D.shape)) k input.old.now
            (lists_of (lengths_left self.new.lengths) (D.held self.new.elements)) input.new.now) }
        ensures counted { OnOk result
            (saturated (count_if_free (has_entry D.shape) (lengths_sum self.new.lengths)
            + D.free_inside self.new.elements) ≡ saturated (free_count (seq_shape None D.shape)
            (lists_of (lengths_left self.new.lengths) (D.held self.new.elements)))) }
        ensures total { OnOk result
            (lengths_sum self.new.lengths ≡ length (joined
            (lists_of (lengths_left self.new.lengths) (D.held self.new.elements)))) }
        ensures judged { IsTrue strict → IfOk result
            (λ written. JudgesData (seq_shape None D.shape)
            (lists_of (lengths_left self.new.lengths) (D.held self.new.elements)) written
            input.old.now input.new.now) }
        ensures refused { IfErr result
            (λ e. IsReadingRefusal (seq_shape None D.shape) e.reason k input.old.now) }
        ensures exact { IfErr result
            (λ e. IsFirstFault (seq_shape None D.shape) e.reason k input.old.now) }
        ensures rest { OnErr result (IsEndOf input.old.now input.new.now) }
    {
        let lengths = self.lengths.read(input, k, strict)?;
        let elements = self.elements.read(input, self.lengths.length(), strict)?;
        Ok(both(lengths, elements))
    }
}

impl<'a, D> VecDecoder<'a, D> {
    /// The decoder of the elements.
    ///
    /// ```rust
    /// let mut input: &[u8] = &[1, 7];
    /// let mut lists: VecDecoder<IntDecoder<u8>> = VecDecoder::new(alloc);
    /// lists.populate(&mut input, 1)?;
    /// assert_eq!(rt; lists.elements().column_free().inside, 0);
    /// ```
    pub fn elements(&self) -> &D
        ensures { result.now ≡ self.now.elements }
    {
        &self.elements
    }

    /// The sum of all lengths that were read, including those already taken.
    ///
    /// ```rust
    /// let mut input: &[u8] = &[1, 7];
    /// let mut lists: VecDecoder<IntDecoder<u8>> = VecDecoder::new(alloc);
    /// lists.populate(&mut input, 1)?;
    /// assert_eq!(rt; lists.total(), 1);
    /// ```
    pub fn total(&self) -> usize
        ensures { result ≡ lengths_sum self.now.lengths }
    {
        LengthDecoder::length(&self.lengths)
    }

    /// Makes a container from the next length and as many elements. At least one length must be left.
    ///
    /// The decoder of a user-defined container calls this. The only error is `out of memory`.
    ///
    /// ```rust,from:crates/bitcode_own_types/src/scores.rt
    /// self.lists.decode_as()
    /// ```
    pub fn decode_as<C: FromElements>(&mut self) -> Result<C, Error>
    where
        D: Decoder<C::Part>,
        requires { 0 < length
            (lists_of (lengths_left self.old.lengths) (D.held self.old.elements)) }
        ensures made { IfOk result
            (λ t. TakesDatum C.data.makes t
            (lists_of (lengths_left self.old.lengths) (D.held self.old.elements))
            (lists_of (lengths_left self.new.lengths) (D.held self.new.elements))) }
        ensures refused { IfErr result (λ e. e.reason ≡ Reason.OutOfMemory) }
    {
        let count = self.lengths.decode();
        let elements = decode_each(self.alloc, &mut self.elements, count)?;
        C::from_elements(self.alloc, elements)
    }
}

impl<'a, T: Shaped + Drop, D: Decoder<T>> Decoder<Vec<T>> for VecDecoder<'a, D> {
    ghost makes_free = { false };

    fn decode(&mut self) -> Result<Vec<T>, Error> {
        self.decode_as()
    }

    const READS_ONE: bool = D::READS_LISTS;

    #[inline(always)]
    fn read_one(alloc: Global, input: &mut &[u8]) -> Option<Vec<T>>
        ensures { IfSome result
            (λ t. ReadsValue ⟦<Vec<T> as Shaped>⟧.data.makes (seq_shape None D.shape) input.old.now
            t input.new.now) }
    {
        let mut lengths = LengthDecoder::new(alloc);
        let Ok(_) = lengths.read(input, 1, false) else {
            return None;
        };
        D::read_list(alloc, input, lengths.length())
    }

    ghost same_shape = { ap (seq_shape None) D.same_shape };
}

impl<'a, T: Shaped + Drop, D: Decoder<T>> Decoder<VecDeque<T>> for VecDecoder<'a, D> {
    ghost makes_free = { false };

    fn decode(&mut self) -> Result<VecDeque<T>, Error> {
        self.decode_as()
    }

    ghost same_shape = { ap (seq_shape None) D.same_shape };
}

impl<'a, T: Shaped + Drop, D: Decoder<T>> Decoder<LinkedList<T>> for VecDecoder<'a, D> {
    ghost makes_free = { false };

    fn decode(&mut self) -> Result<LinkedList<T>, Error> {
        self.decode_as()
    }

    ghost same_shape = { ap (seq_shape None) D.same_shape };
}
