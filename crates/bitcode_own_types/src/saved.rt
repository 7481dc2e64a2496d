//! What is saved is loaded: the laws of the round trip, in few lines of a proof.
ghost use Rattle.std.specs.Prelude.{◌≡◌, IfOk, IfErr, IsTrue};
ghost use Rattle.bitcode.specs.ByHand.{HasLongListing, HasShortLengths, IsWritingRefusal};

use crate::monster::Monster;
use crate::scores::Scores;
use crate::spot::Spot;
use bitcode::laws::{comes_back, comes_back_equal, comes_back_in_bytes, told_exactly};
use bitcode::{Error, Reason, Shaped, decode, encode, err};
use std::alloc::Global;
use std::collections::BTreeSet;

/// Writes scores and reads them back: what is read is equal to what was written, where there are fewer than
/// 2251799813685247 of them.
///
/// Errors: `out of memory`, and nothing else that such scores could be refused for.
pub fn saved_and_loaded(alloc: Global, scores: &Scores) -> Result<Scores, Error>
    ensures equal { HasShortLengths ⟦<Scores as Shaped>⟧.data.lists ⟦<Scores as Shaped>⟧.data.shape
        scores.now
        → IfOk result (λ again. ⟦<Scores as Shaped>⟧.data.same scores.now again) }
    ensures refused { HasShortLengths ⟦<Scores as Shaped>⟧.data.lists
        ⟦<Scores as Shaped>⟧.data.shape
        scores.now → IfErr result
        (λ e. IsWritingRefusal e.reason
        (HasLongListing ⟦<Scores as Shaped>⟧.data.lists ⟦<Scores as Shaped>⟧.data.shape
        scores.now)) }
{
    let bytes = encode(alloc, scores)?;
    let written = bytes.as_slice();
    let again = decode(alloc, written);
    comes_back(scores, written, &again);
    again
}

/// Writes a monster, which owns memory, and reads it back: what is read is equal to what was written.
///
/// Errors: `out of memory`, and `length overflow` if the bytes are 281474976710656 or more.
pub fn saved_monster(alloc: Global, monster: &Monster) -> Result<Monster, Error>
    ensures { IfOk result (λ again. ⟦<Monster as Shaped>⟧.data.same monster.now again) }
{
    let bytes = encode(alloc, monster)?;
    let written = bytes.as_slice();
    if written.len() >= 0x1_0000_0000_0000 {
        return err(Reason::LengthOverflow);
    }
    let again: Result<Monster, Error> = decode(alloc, written);
    comes_back_in_bytes(monster, written, &again);
    again
}

/// Writes a spot and reads it back: what is read is the very spot that was written.
///
/// A spot holds two numbers, and equal numbers are identical.
pub fn saved_spot(alloc: Global, spot: &Spot) -> Result<Spot, Error>
    ensures { HasShortLengths ⟦<Spot as Shaped>⟧.data.lists ⟦<Spot as Shaped>⟧.data.shape spot.now
        → IfOk result (λ again. spot.now ≡ again) }
{
    let bytes = encode(alloc, spot)?;
    let written = bytes.as_slice();
    let again: Result<Spot, Error> = decode(alloc, written);
    comes_back(spot, written, &again);
    let read = again?;
    told_exactly(spot, &read);
    Ok(read)
}

/// Writes spots and reads them back: what is read is `==` to what was written.
pub fn saved_spots(alloc: Global, spots: &BTreeSet<Spot>) -> Result<BTreeSet<Spot>, Error>
    ensures { HasShortLengths ⟦<BTreeSet<Spot> as Shaped>⟧.data.lists
        ⟦<BTreeSet<Spot> as Shaped>⟧.data.shape
        spots.now
        → IfOk result (λ again. IsTrue (⟦<BTreeSet<Spot> as PartialEq>⟧.eq spots.now again)) }
{
    let bytes = encode(alloc, spots)?;
    let written = bytes.as_slice();
    let again = decode::<BTreeSet<Spot>>(alloc, written);
    comes_back_equal(spots, written, &again);
    again
}
