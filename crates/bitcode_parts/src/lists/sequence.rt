//! Sequences: iterators that lend elements, encoding and decoding elements one by one, and the types that are written
//! as, and made from, the sequence of their elements.
ghost use Rattle.std.specs.Prelude.{◌≡◌, ◌≢◌, ◌+◌, ◌<◌, ◌≤◌, ◌++◌, List, None, length, map, take, All, refl};
ghost use Rattle.std.specs.Prelude.{IsTrue, IsFalse, IsOk};
ghost use Rattle.std.specs.Prelude.{IfOk, OnOk, IfErr};
ghost use Rattle.std.specs.VecDeque.{deque_items};
ghost use Rattle.bitcode_memory.specs.declared.error.Reason.{Reason};
ghost use Rattle.bitcode_shapes.specs.Datum.{Datum};
ghost use Rattle.bitcode_shapes.specs.Shape.{seq_shape};
ghost use Rattle.bitcode_shapes.specs.Lists.{ListsSequence};
ghost use Rattle.bitcode_coder.specs.Columns.{emptied};
ghost use Rattle.bitcode_coder.specs.Coder.{written_columns, BeginsWith, JoinsEach, WritesEach, OverflowsWithEach};
ghost use Rattle.bitcode_coder.specs.Coder.{IsWritingRefusal, TakesEach};
ghost use Rattle.bitcode_parts.specs.Elements.{MakesOfElements};

use bitcode_coder::coder::{Decoder, EncodeMany};
use bitcode_coder::lends::Lends;
use bitcode_coder::part::Behind;
use bitcode_memory::error::{Error, Reason};
use bitcode_shapes::shaped::Shaped;
use std::alloc::Global;
use std::collections::{LinkedList, VecDeque};

// So many elements that are lent are gathered, and written at once.
const MOST_LENT: usize = 32;

// Takes elements that are lent and puts references to them after the first one of the array, until the array is full
// or none is left. Returns how many the array then has.
fn gather_lent<'b, T, L: Lends<'b, T>>(lent: &mut L, several: &mut [&'b T; MOST_LENT]) -> usize
    requires { length several.old ≡ MOST_LENT }
    ensures count { (0 < result) × (result ≤ MOST_LENT) }
    ensures size { length several.new ≡ MOST_LENT }
    ensures taken { map (λ item. item.now) (take 1 several.old) ++ L.rest lent.old ≡ map
        (λ item. item.now)
        (take result several.new) ++ L.rest lent.new }
{
    for count in 1..MOST_LENT {
        match lent.lend() {
            Some(item) => several[count] = item,
            None => return count,
        }
    }
    MOST_LENT
}

/// Writes the elements that are lent, several of them at once. The caller must have reserved room for them.
///
/// Errors: those of the encoder. Some of the first elements may have been written by then.
///
/// ```rust
/// let queue = vec![in alloc; 7u8, 8]?;
/// let mut elements: IntEncoder<u8> = IntEncoder::new(alloc);
/// elements.reserve(queue.len())?;
/// encode_lent(&mut elements, queue.iter())?;
/// assert_eq!(rt; elements.collect(alloc)?.as_slice(), [7, 8].as_slice());
/// ```
pub fn encode_lent<'b, T: Shaped + 'b, L: Lends<'b, T>, E: EncodeMany<T>>(
    elements: &mut E,
    mut lent: L,
) -> Result<(), Error>
    requires room { length (L.rest lent) ≤ E.room elements.old }
    requires values { All T.data.is_value (L.rest lent) }
    ensures joined { OnOk result
        (JoinsEach T.data.lists T.data.shape (L.rest lent) (E.columns elements.old)
        (E.columns elements.new)) }
    ensures room { OnOk result (E.room elements.old ≤ E.room elements.new + length (L.rest lent)) }
    ensures form { emptied (E.columns elements.new) ≡ emptied (E.columns elements.old) }
    ensures refused { IfErr result
        (λ e. IsWritingRefusal e.reason
        (OverflowsWithEach T.data.lists T.data.shape (L.rest lent) (E.columns elements.old))) }
    ensures free { IsTrue E.writes_free → IfErr result (λ e. e.reason ≢ Reason.OutOfMemory) }
    ensures none { length (L.rest lent) ≡ 0 → IsOk result }
{
    while let Some(first) = lent.lend() {
        let mut several = [first; MOST_LENT];
        let count = gather_lent(&mut lent, &mut several);
        elements.encode_part_of_each(&several[..count], &Behind, first)?;
    }
    Ok(())
}

/// Writes the elements of a slice, front to back. The caller must have reserved room for them.
///
/// Errors: those of the encoder. Some of the first elements may have been written by then.
///
/// ```rust
/// let mut elements: IntEncoder<u8> = IntEncoder::new(alloc);
/// elements.reserve(2)?;
/// encode_each(&mut elements, &[7, 8])?;
/// assert_eq!(rt; elements.collect(alloc)?.as_slice(), [7, 8].as_slice());
/// ```
pub fn encode_each<T: Shaped, E: EncodeMany<T>>(elements: &mut E, items: &[T]) -> Result<(), Error>
    requires { length items.now ≤ E.room elements.old }
    ensures joined { OnOk result
        (JoinsEach T.data.lists T.data.shape items.now (E.columns elements.old)
        (E.columns elements.new)) }
    ensures room { OnOk result (E.room elements.old ≤ E.room elements.new + length items.now) }
    ensures form { emptied (E.columns elements.new) ≡ emptied (E.columns elements.old) }
    ensures refused { IfErr result
        (λ e. IsWritingRefusal e.reason
        (OverflowsWithEach T.data.lists T.data.shape items.now (E.columns elements.old))) }
    ensures free { IsTrue E.writes_free → IfErr result (λ e. e.reason ≢ Reason.OutOfMemory) }
    ensures none { length items.now ≡ 0 → IsOk result }
{
    elements.encode_slice(items)
}

/// Makes `count` values, one after another, with one call of the decoder. At least as many data must be left.
///
/// The only error is `out of memory`. It never occurs if no value is wanted.
///
/// ```rust
/// let mut input: &[u8] = &[6, 57];
/// let mut elements: IntDecoder<u8> = IntDecoder::new(alloc);
/// elements.populate(&mut input, 3)?;
/// let items: Vec<u8> = decode_each(alloc, &mut elements, 3)?;
/// assert_eq!(rt; items.as_slice(), [1, 2, 3].as_slice());
/// ```
pub fn decode_each<T: Shaped + Drop, D: Decoder<T>>(
    alloc: Global,
    elements: &mut D,
    count: usize,
) -> Result<Vec<T>, Error>
    requires { count ≤ length (D.held elements.old) }
    ensures made { IfOk result
        (λ items. TakesEach T.data.makes count items.items (D.held elements.old)
        (D.held elements.new)) }
    ensures refused { IfErr result (λ e. e.reason ≡ Reason.OutOfMemory) }
    ensures none { count ≡ 0 → IsOk result }
{
    elements.decode_many(alloc, count)
}

/// A type that is written as the sequence of its elements: a vector front to back, a set in the order of its keys or in
/// an internal order.
///
/// ```rust,from:crates/bitcode_own_types/src/scores.rt
/// impl Sequence for Scores {
///     type Element = u32;
///     // ..
///     fn element_count(&self) -> usize {
///         self.list.len()
///     }
///
///     fn encode_elements<E: EncodeMany<u32>>(&self, elements: &mut E) -> Result<()> {
///         encode_each(elements, self.list.as_slice())
///     }
///     // ..
/// }
/// ```
pub trait Sequence: Shaped {
    type Element: Shaped;

    // the elements, as they are written
    ghost items: { Self → List Self.Element };

    /// The number of elements.
    fn element_count(&self) -> usize
        ensures { result ≡ length (items self.now) };

    /// Writes the elements, one after another. The caller must have reserved room for them.
    ///
    /// Errors: those of the encoder. Some of the first elements may have been written by then.
    fn encode_elements<E: EncodeMany<Self::Element>>(&self, elements: &mut E) -> Result<(), Error>
        requires room { length (items self.now) ≤ E.room elements.old }
        requires values { All Self.Element.data.is_value (items self.now) }
        ensures joined { OnOk result
            (JoinsEach Self.Element.data.lists Self.Element.data.shape (items self.now)
            (E.columns elements.old) (E.columns elements.new)) }
        ensures room { OnOk result
            (E.room elements.old ≤ E.room elements.new + length (items self.now)) }
        ensures form { emptied (E.columns elements.new) ≡ emptied (E.columns elements.old) }
        ensures refused { IfErr result
            (λ e. IsWritingRefusal e.reason
            (OverflowsWithEach Self.Element.data.lists Self.Element.data.shape (items self.now)
            (E.columns elements.old))) };

    /// Appends the columns of the elements to `out`, if `Self` implements this call and the encoder can do so without a
    /// copy of the elements. The columns of the encoder must be empty. Returns whether it did. If not, `out` is
    /// unchanged.
    ///
    /// The only error is `out of memory`. `out` then begins with its old bytes.
    fn write_elements<E: EncodeMany<Self::Element>>(
        &self,
        _elements: &E,
        _out: &mut Vec<u8>,
    ) -> Result<bool, Error>
        requires { E.columns _elements.now ≡ emptied (E.columns _elements.now) }
        ensures written { IfOk result
            (λ done. IsTrue done → WritesEach Self.Element.data.lists Self.Element.data.shape
            (items self.now)
            (E.columns _elements.now) _out.old.items _out.new.items) }
        ensures unchanged { IfOk result (λ done. IsFalse done → _out.new.items ≡ _out.old.items) }
        ensures begins { BeginsWith _out.old.items _out.new.items }
        ensures refused { IfErr result (λ e. e.reason ≡ Reason.OutOfMemory) }
    {
        Ok(false)
    }

    ghost items_are: { (t : Self) → Self.data.is_value t
        → All Self.Element.data.is_value (items t) };

    ghost items_list: { (t : Self) (d : Datum) → ListsSequence Self.Element.data.lists (items t) d
        → Self.data.lists t d };

    ghost items_columns: { (ds : List Datum)
        → written_columns Self.data.shape ds ≡ written_columns
        (seq_shape None Self.Element.data.shape) ds };
}

impl<T: Shaped> Sequence for Vec<T> {
    type Element = T;

    ghost items = { λ v. v.items };

    fn element_count(&self) -> usize {
        self.len()
    }

    fn encode_elements<E: EncodeMany<T>>(&self, elements: &mut E) -> Result<(), Error> {
        encode_each(elements, self.as_slice())
    }

    fn write_elements<E: EncodeMany<T>>(
        &self,
        elements: &E,
        out: &mut Vec<u8>,
    ) -> Result<bool, Error> {
        elements.write_slice_directly(self.as_slice(), out)
    }

    ghost items_are = { λ t h. h };

    ghost items_list = { λ t d l. l };

    ghost items_columns = { λ ds. refl };
}

impl<'b, T: Shaped> Sequence for &'b [T] {
    type Element = T;

    ghost items = { λ s. s.now };

    fn element_count(&self) -> usize {
        self.len()
    }

    fn encode_elements<E: EncodeMany<T>>(&self, elements: &mut E) -> Result<(), Error> {
        encode_each(elements, *self)
    }

    fn write_elements<E: EncodeMany<T>>(
        &self,
        elements: &E,
        out: &mut Vec<u8>,
    ) -> Result<bool, Error> {
        elements.write_slice_directly(*self, out)
    }

    ghost items_are = { λ t h. h };

    ghost items_list = { λ t d l. l };

    ghost items_columns = { λ ds. refl };
}

impl<T: Shaped> Sequence for VecDeque<T> {
    type Element = T;

    ghost items = { λ q. deque_items q };

    fn element_count(&self) -> usize {
        self.len()
    }

    fn encode_elements<E: EncodeMany<T>>(&self, elements: &mut E) -> Result<(), Error> {
        encode_lent(elements, self.iter())
    }

    ghost items_are = { λ t h. h };

    ghost items_list = { λ t d l. l };

    ghost items_columns = { λ ds. refl };
}

impl<T: Shaped> Sequence for LinkedList<T> {
    type Element = T;

    ghost items = { λ l. l };

    fn element_count(&self) -> usize {
        self.len()
    }

    fn encode_elements<E: EncodeMany<T>>(&self, elements: &mut E) -> Result<(), Error> {
        encode_lent(elements, self.iter())
    }

    ghost items_are = { λ t h. h };

    ghost items_list = { λ t d l. l };

    ghost items_columns = { λ ds. refl };
}

/// A type that is made from its elements, one after another.
///
/// ```rust,from:crates/bitcode_own_types/src/scores.rt
/// impl FromElements for Scores {
///     type Part = u32;
///
///     fn from_elements(_alloc: Global, elements: Vec<u32>) -> Result<Scores>
///     // ..
///     {
///         Ok(Scores { list: elements })
///     }
/// }
/// ```
pub trait FromElements: Shaped {
    type Part: Shaped + Drop;

    /// Makes the value from these elements.
    ///
    /// The only error is `out of memory`.
    fn from_elements(alloc: Global, elements: Vec<Self::Part>) -> Result<Self, Error>
        ensures made { IfOk result
            (λ t. MakesOfElements Self.data.makes Self.Part.data.makes t elements.items) }
        ensures refused { IfErr result (λ e. e.reason ≡ Reason.OutOfMemory) };
}

impl<T: Shaped + Drop> FromElements for Vec<T> {
    type Part = T;

    fn from_elements(_alloc: Global, elements: Vec<T>) -> Result<Vec<T>, Error>
        ensures made { IfOk result
            (λ t. MakesOfElements ⟦<Vec<T> as Shaped>⟧.data.makes T.data.makes t elements.items) }
        ensures refused { IfErr result (λ e. e.reason ≡ Reason.OutOfMemory) }
    {
        Ok(elements)
    }
}

impl<T: Shaped + Drop> FromElements for VecDeque<T> {
    type Part = T;

    fn from_elements(_alloc: Global, elements: Vec<T>) -> Result<VecDeque<T>, Error>
        ensures made { IfOk result
            (λ t. MakesOfElements ⟦<VecDeque<T> as Shaped>⟧.data.makes T.data.makes t
            elements.items) }
        ensures refused { IfErr result (λ e. e.reason ≡ Reason.OutOfMemory) }
    {
        Ok(VecDeque::from(elements))
    }
}

impl<T: Shaped + Drop> FromElements for LinkedList<T> {
    type Part = T;

    fn from_elements(alloc: Global, elements: Vec<T>) -> Result<LinkedList<T>, Error>
        ensures made { IfOk result
            (λ t. MakesOfElements ⟦<LinkedList<T> as Shaped>⟧.data.makes T.data.makes t
            elements.items) }
        ensures refused { IfErr result (λ e. e.reason ≡ Reason.OutOfMemory) }
    {
        let mut list = LinkedList::new(alloc);
        for element in elements {
            list.push_back(element)?;
        }
        Ok(list)
    }
}
