//! What the encoder of some of a struct's fields forwards to.
ghost use Rattle.std.specs.Prelude.{◌≡◌, ◌≤◌, IsOk, OnOk, IfErr, IsErrOf};
ghost use Rattle.bitcode_memory.specs.declared.error.Reason.{Reason};
ghost use Rattle.bitcode_coder.specs.Coder.{IsWritingRefusal, SurelyOverflows};

use bitcode_coder::coder::Buffer;
use bitcode_memory::error::Error;
use bitcode_tuples::part_encoder::{PartEncoder, PartOf};

/// Reserves room for the part `K` of `n` more values of `T`, as [`Buffer::reserve`] does. It states `length overflow`
/// in terms of the shape of the part, so that an encoder that forwards to `encoder` need not name the encoders inside
/// it.
///
/// Errors: those of `reserve`.
///
/// ```text
/// fn reserve(&mut self, n: usize) -> Result<(), Error> {
///     reserve_part::<Player, (Nth<0>, Nth<1>), _>(&mut self.fields, n)
/// }
/// ```
pub fn reserve_part<T, K: PartOf<T>, E: Buffer + PartEncoder<T, K>>(
    encoder: &mut E,
    n: usize,
) -> Result<(), Error>
    ensures columns { E.columns encoder.new ≡ E.columns encoder.old }
    ensures ok { OnOk result (n ≤ E.room encoder.new) }
    ensures grows { E.room encoder.old ≤ E.room encoder.new }
    ensures succeeds { n ≤ E.room encoder.old → IsOk result }
    ensures refused { IfErr result
        (λ e. IsWritingRefusal e.reason
        (SurelyOverflows K.shape (E.columns encoder.old) n)) }
    ensures overflow { E.overflows encoder.old n
        → IsErrOf result (record { reason = Reason.LengthOverflow }) }
{
    encoder.reserve(n)
}
