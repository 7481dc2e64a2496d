//! Structs of two and of three fields and an enum as keys of sets and maps, as `scripts/new_type` writes them.
ghost use Rattle.std.specs.Prelude.{◌≢◌, IfOk, IfErr};
ghost use Rattle.bitcode.specs.ByHand.{Datum, IsDecodingOf, SpellsDatum};

use crate::light::Light;
use crate::seat::Seat;
use crate::spot::Spot;
use bitcode::{Error, Reason, Shaped, decode};
use std::alloc::Global;
use std::collections::{BTreeMap, BTreeSet};

/// The spots that have each light.
pub type LitSpots = BTreeMap<Light, BTreeSet<Spot>>;

/// How often each seat was sold.
pub type SoldSeats = BTreeMap<Seat, u32>;

/// The spots that have each light, as they were written. It refuses as `decode` does.
pub fn lit_spots(alloc: Global, input: &[u8]) -> Result<LitSpots, Error>
    ensures found { IfOk result
        (λ spots. IsDecodingOf ⟦<LitSpots as Shaped>⟧.data.makes ⟦<LitSpots as Shaped>⟧.data.shape
        input.now
        spots) }
    ensures refused { IfErr result
        (λ e. e.reason ≢ Reason.OutOfMemory → (d : Datum)
        → SpellsDatum ⟦<LitSpots as Shaped>⟧.data.shape input.now d → ⊥) }
{
    decode::<LitSpots>(alloc, input)
}

/// How often each seat was sold. It refuses as `decode` does.
pub fn sold_seats(alloc: Global, input: &[u8]) -> Result<SoldSeats, Error>
    ensures found { IfOk result
        (λ seats. IsDecodingOf ⟦<SoldSeats as Shaped>⟧.data.makes ⟦<SoldSeats as Shaped>⟧.data.shape
        input.now
        seats) }
    ensures refused { IfErr result
        (λ e. e.reason ≢ Reason.OutOfMemory → (d : Datum)
        → SpellsDatum ⟦<SoldSeats as Shaped>⟧.data.shape input.now d → ⊥) }
{
    decode::<SoldSeats>(alloc, input)
}
