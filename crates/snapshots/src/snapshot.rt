//! Snapshots of the entities as bytes.
ghost use Rattle.std.specs.Prelude.{◌≡◌, ◌≢◌, ◌<◌, ◌^◌, length, IfOk, IfErr};
ghost use Rattle.bitcode.specs.ByHand.{Datum, HasLongListing, IsDecodingOf, IsEncodingOf};
ghost use Rattle.bitcode.specs.ByHand.{IsWritingRefusal, SpellsDatum};

use crate::entity::Entity;
use bitcode::laws::comes_back_in_bytes;
use bitcode::{Buffer, Error, Reason, Shaped, decode};
use std::alloc::Global;

/// All entities of a tick.
pub type Entities = Vec<Entity>;

/// The snapshot of the entities, in the memory of the buffer, until its next call.
pub fn take<'a>(buffer: &'a mut Buffer<Entities>, entities: &Entities) -> Result<&'a [u8], Error>
    ensures written { IfOk result (λ bytes. IsEncodingOf ⟦<Entities as Shaped>⟧.data.lists
        ⟦<Entities as Shaped>⟧.data.shape entities.now bytes.now) }
    ensures refused { IfErr result (λ e. IsWritingRefusal e.reason
        (HasLongListing ⟦<Entities as Shaped>⟧.data.lists ⟦<Entities as Shaped>⟧.data.shape
        entities.now)) }
{
    buffer.encode(entities)
}

/// The entities of a snapshot. Bytes that are none are refused.
pub fn restore(alloc: Global, bytes: &[u8]) -> Result<Entities, Error>
    ensures found { IfOk result (λ entities. IsDecodingOf ⟦<Entities as Shaped>⟧.data.makes
        ⟦<Entities as Shaped>⟧.data.shape bytes.now entities) }
    ensures refused { IfErr result (λ e. e.reason ≢ Reason.OutOfMemory → (d : Datum)
        → SpellsDatum ⟦<Entities as Shaped>⟧.data.shape bytes.now d → ⊥) }
{
    decode(alloc, bytes)
}

/// Restores the snapshot that was taken of these entities: what it returns is equal to them, if the snapshot has fewer
/// than 281474976710656 bytes. The only error is then `out of memory`.
pub fn restored(alloc: Global, entities: &Entities, snapshot: &[u8]) -> Result<Entities, Error>
    requires written { IsEncodingOf ⟦<Entities as Shaped>⟧.data.lists
        ⟦<Entities as Shaped>⟧.data.shape entities.now snapshot.now }
    ensures same { length snapshot.now < 2 ^ 48
        → IfOk result (λ again. ⟦<Entities as Shaped>⟧.data.same entities.now again) }
    ensures refused { length snapshot.now < 2 ^ 48
        → IfErr result (λ e. e.reason ≡ Reason.OutOfMemory) }
{
    let again = restore(alloc, snapshot);
    comes_back_in_bytes(entities, snapshot, &again);
    again
}
