//! The encoder of texts.
ghost use Rattle.std.specs.Prelude.{◌≡◌, ◌+◌, ◌*◌, ◌<◌, ◌≤◌, ◌++◌, [], ◌∷◌, None, false, length, map, take, sum, IfOk};
ghost use Rattle.std.specs.Prelude.{OnOk, IfErr};
ghost use Rattle.std.proofs.Common.{sym};
ghost use Rattle.bitcode_memory.specs.Fast.{fast_items, fast_room, fast_capacity};
ghost use Rattle.bitcode_shapes.specs.Datum.{text};
ghost use Rattle.bitcode_coder.specs.Coder.{BeginsWith};
ghost use Rattle.bitcode_coder.specs.Columns.{texts, one};
ghost use Rattle.bitcode_coder.specs.PushedTexts.{PushesTexts, texts_in};
ghost use Rattle.bitcode_coder.specs.Length.{written_lengths, length_room, length_capacity};
ghost use Rattle.bitcode_coder.specs.LengthColumn.{length_bytes};

use crate::coder::{Buffer, EncodeMany, Encoder, HoldsColumns, MAX_VECTORED_CHUNK};
use crate::length::LengthEncoder;
use crate::one::write_length;
use crate::part::Part;
use crate::str::AsText;
use bitcode_memory::error::{Error, Reason};
use bitcode_memory::fast::FastVec;
use std::alloc::Global;
use std::mem::replace;

/// The column that texts are written to: their lengths, and then their concatenated bytes.
///
/// ```
/// let mut column = StrEncoder::new(alloc);
/// column.reserve(2)?;
/// column.encode(&"ab")?;
/// column.encode(&"c")?;
/// column.collect_into(&mut bytes)?; // [2, 1, 97, 98, 99]
/// ```
#[derive(Drop)]
pub struct StrEncoder {
    alloc: Global,
    lengths: LengthEncoder,
    bytes: FastVec<u8>,
    others: [u8; 8],
    ghost whole: { sum (written_lengths lengths) ≡ length (fast_items bytes) },
}

// Writes both parts of a column. The lengths are to be cleared afterwards.
fn pack_texts(lengths: &mut LengthEncoder, bytes: &[u8], out: &mut Vec<u8>) -> Result<(), Error>
    ensures written { OnOk result
        (out.new.items ≡ out.old.items
        ++ (length_bytes (written_lengths lengths.old) ++ bytes.now)) }
    ensures begins { BeginsWith out.old.items out.new.items }
    ensures reason { IfErr result (λ e. e.reason ≡ Reason.OutOfMemory) }
{
    lengths.collect_into(out)?;
    if !bytes.is_empty() {
        out.extend_from_slice(bytes)?;
    }
    Ok(())
}

// Lengths and bytes of texts, behind those that were there, and how many texts were pushed.
struct Pushed {
    lengths: LengthEncoder,
    bytes: FastVec<u8>,
    count: usize,
}

// Pushes the text that is a part of each item, up to the first one of more than `MOST` bytes. The lists are passed by
// value and returned: through a reference, each text would load and store their lengths. Of 15 bytes, the loop has one
// way to push them, and so each text takes fewer instructions than of 64.
fn push_up_to<S, P: AsText, W: Part<S, P>, const MOST: usize>(
    mut lengths: LengthEncoder,
    mut bytes: FastVec<u8>,
    items: &[S],
    which: &W,
    others: &[u8; 8],
) -> Pushed
    requires most { (15 ≤ MOST) × (MOST ≤ 64) }
    requires whole { sum (written_lengths lengths) ≡ length (fast_items bytes) }
    requires lengths { length items.now ≤ length_room lengths }
    requires bytes { MOST * length items.now ≤ fast_room bytes }
    ensures count { result.count ≤ length items.now }
    ensures written { PushesTexts P.data.lists (map (W.of which.now) (take result.count items.now))
        (texts_in lengths bytes) (texts_in result.lengths result.bytes) }
    ensures whole { sum (written_lengths result.lengths) ≡ length (fast_items result.bytes) }
    ensures room { length_room lengths ≡ length_room result.lengths + result.count }
{
    let mut count = 0usize;
    for item in items {
        let text = which.part(item).as_text().as_bytes();
        if text.len() > MOST {
            break;
        }
        lengths.encode_less_than_255(text.len());
        bytes.extend_few(text, others);
        count += 1;
    }
    Pushed {
        lengths,
        bytes,
        count,
    }
}

impl StrEncoder {
    ghost use Rattle.bitcode_coder.specs.WrittenTexts.{written_texts};

    // Writes the text that is a part of each item. Room for them was reserved.
    fn encode_texts_in<S, P: AsText, W: Part<S, P>>(
        &mut self,
        items: &[S],
        which: &W,
    ) -> Result<(), Error>
        requires chunk { length items.now ≤ MAX_VECTORED_CHUNK }
        requires room { length items.now ≤ length_room self.old.lengths }
        ensures written { OnOk result
            (PushesTexts P.data.lists (map (W.of which.now) items.now) (written_texts self.old)
            (written_texts self.new)) }
        ensures room { OnOk result
            (length_room self.old.lengths ≤ length_room self.new.lengths + length items.now) }
        ensures refused { IfErr result (λ e. e.reason ≡ Reason.OutOfMemory) }
    {
        let mut done = 0usize;
        while done < items.len() {
            done += self.encode_up_to::<S, P, W, 15>(&items[done..], which)?;
            done += self.encode_longer(&items[done..], which)?;
        }
        Ok(())
    }

    // Writes the text that is a part of each item, up to the first one of more than `MOST` bytes. Returns their number.
    fn encode_up_to<S, P: AsText, W: Part<S, P>, const MOST: usize>(
        &mut self,
        items: &[S],
        which: &W,
    ) -> Result<usize, Error>
        requires most { (15 ≤ MOST) × (MOST ≤ 64) }
        requires chunk { length items.now ≤ MAX_VECTORED_CHUNK }
        requires room { length items.now ≤ length_room self.old.lengths }
        ensures count { IfOk result (λ n. n ≤ length items.now) }
        ensures written { IfOk result
            (λ n. PushesTexts P.data.lists (map (W.of which.now) (take n items.now))
            (written_texts self.old) (written_texts self.new)) }
        ensures room { IfOk result
            (λ n. length_room self.old.lengths ≤ length_room self.new.lengths + n) }
        ensures refused { IfErr result (λ e. e.reason ≡ Reason.OutOfMemory) }
    {
        if items.is_empty() {
            return Ok(0);
        }
        self.bytes.reserve(MOST * items.len())?;
        let lengths = replace(&mut self.lengths, LengthEncoder::new(self.alloc));
        let bytes = replace(&mut self.bytes, FastVec::new(self.alloc));
        let Pushed {
            lengths,
            bytes,
            count,
        } = push_up_to::<S, P, W, MOST>(lengths, bytes, items, which, &self.others);
        self.lengths = lengths;
        self.bytes = bytes;
        Ok(count)
    }

    // The same for texts of any length, at least for the first one. It stands alone, so that the loop over short texts
    // has all registers.
    #[inline(never)]
    fn encode_longer<S, P: AsText, W: Part<S, P>>(
        &mut self,
        items: &[S],
        which: &W,
    ) -> Result<usize, Error>
        requires chunk { length items.now ≤ MAX_VECTORED_CHUNK }
        requires room { length items.now ≤ length_room self.old.lengths }
        ensures count { IfOk result (λ n. n ≤ length items.now) }
        ensures some { IfOk result (λ n. 0 < length items.now → 0 < n) }
        ensures written { IfOk result
            (λ n. PushesTexts P.data.lists (map (W.of which.now) (take n items.now))
            (written_texts self.old) (written_texts self.new)) }
        ensures room { IfOk result
            (λ n. length_room self.old.lengths ≤ length_room self.new.lengths + n) }
        ensures refused { IfErr result (λ e. e.reason ≡ Reason.OutOfMemory) }
    {
        let some = self.encode_up_to::<S, P, W, 64>(items, which)?;
        let long = self.encode_long(&items[some..], which)?;
        Ok(some + long)
    }

    // Writes the text that is a part of the first item, and then those of more than 64 bytes. Returns their number.
    fn encode_long<S, P: AsText, W: Part<S, P>>(
        &mut self,
        items: &[S],
        which: &W,
    ) -> Result<usize, Error>
        requires { length items.now ≤ length_room self.old.lengths }
        ensures count { IfOk result (λ n. n ≤ length items.now) }
        ensures some { IfOk result (λ n. 0 < length items.now → 0 < n) }
        ensures written { IfOk result
            (λ n. PushesTexts P.data.lists (map (W.of which.now) (take n items.now))
            (written_texts self.old) (written_texts self.new)) }
        ensures room { IfOk result
            (λ n. length_room self.old.lengths ≤ length_room self.new.lengths + n) }
        ensures refused { IfErr result (λ e. e.reason ≡ Reason.OutOfMemory) }
    {
        let mut count = 0usize;
        for item in items {
            let text = which.part(item).as_text().as_bytes();
            if count > 0 && text.len() <= 64 {
                break;
            }
            self.encode_text(text)?;
            count += 1;
        }
        Ok(count)
    }

    // Writes a text, of which the bytes are given. Room for it was reserved.
    fn encode_text(&mut self, bytes: &[u8]) -> Result<(), Error>
        requires { 0 < length_room self.old.lengths }
        ensures written { OnOk result
            (written_texts self.new ≡ written_texts self.old ++ bytes.now ∷ []) }
        ensures room { OnOk result
            (length_room self.old.lengths ≤ length_room self.new.lengths + 1) }
        ensures refused { IfErr result (λ e. e.reason ≡ Reason.OutOfMemory) }
    {
        if bytes.len() < 16 {
            self.bytes.reserve(15)?;
            self.lengths.encode_less_than_255(bytes.len());
            self.bytes.extend_few(bytes, &self.others);
            return Ok(());
        }
        self.bytes.reserve(bytes.len())?;
        self.lengths.encode(bytes.len())?;
        self.bytes.extend_unchecked(bytes);
        Ok(())
    }
}

impl HoldsColumns for StrEncoder {
    ghost use Rattle.bitcode_coder.specs.WrittenTexts.{written_texts};

    ghost columns = { λ e. one (texts None) (map text (written_texts e)) };

    ghost room = { λ e. length_room e.lengths };

    ghost capacity = { λ e. length_capacity e.lengths + fast_capacity e.bytes };

    ghost surely_overflows = { λ e n. ⊥ };

    ghost overflows = { λ e n. ⊥ };

    ghost writes_free = { false };
}

impl Buffer for StrEncoder {
    fn new(alloc: Global) -> Self {
        StrEncoder {
            alloc,
            lengths: LengthEncoder::new(alloc),
            bytes: FastVec::new(alloc),
            others: [0; 8],
        }
    }

    fn reserve(&mut self, n: usize) -> Result<(), Error> {
        self.lengths.reserve(n)
    }

    fn collect_into(&mut self, out: &mut Vec<u8>) -> Result<(), Error> {
        let packed = pack_texts(&mut self.lengths, self.bytes.as_slice(), out);
        self.lengths.clear();
        self.bytes.clear();
        packed
    }

    fn clear(&mut self) {
        self.lengths.clear();
        self.bytes.clear();
    }
}

impl<P: AsText> Encoder<P> for StrEncoder {
    fn encode(&mut self, t: &P) -> Result<(), Error> {
        self.encode_text(t.as_text().as_bytes())
    }

    fn write_directly(&mut self, t: &P, out: &mut Vec<u8>) -> Result<bool, Error> {
        let text = t.as_text().as_bytes();
        write_length(self.alloc, text.len(), out)?;
        out.extend_from_slice(text)?;
        Ok(true)
    }

    ghost of_shape = { λ e. sym (P.as_text_columns []) };

    ghost surely = { λ e n never. absurd never };
}

impl<P: AsText> EncodeMany<P> for StrEncoder {
    fn encode_part_of_each<S, W: Part<S, P>>(
        &mut self,
        items: &[S],
        which: &W,
        _first: &P,
    ) -> Result<(), Error> {
        self.encode_texts_in(items, which)
    }

    ghost of_shape = { λ e. sym (P.as_text_columns []) };

    ghost surely = { λ e n never. absurd never };
}
