//! Enums that write the payloads of their variants, by variant number.
ghost use Rattle.std.specs.Prelude.{◌≡◌, ◌-◌, ◌<◌, ◌≤◌, OnOk, IfErr};
ghost use Rattle.bitcode_coder.specs.Columns.{no_columns, emptied};
ghost use Rattle.bitcode_coder.specs.Coder.{IsWritingRefusal, JoinsListing, OverflowsWithListing};
ghost use Rattle.bitcode_enums.specs.ByNumber.{columns_at, AreColumnsOf, KeepsOthers};

use crate::columns::HoldsVariantColumns;
use crate::enums::Enum;
use crate::number::VariantNumber;
use bitcode_coder::coder::{Buffer, Encoder};
use bitcode_memory::error::Error;
use bitcode_shapes::shaped::Shaped;
use bitcode_tuples::fields::{Fields, FieldsEncoder};

/// An enum that writes the payloads of the variants from the number `First` to the one before `End`. The enum
/// implements it for each group of two to four variants, and for the struct of all its columns. The library implements
/// it for [`TwoGroups`](crate::two_groups::TwoGroups) and [`NotCompared`](crate::not_compared::NotCompared) of these.
///
/// ```rust,from:crates/bitcode_own_types/src/two.rt
/// impl WritesVariants<At<0>, At<2>, Columns> for Two {
///     fn write(&self, to: &mut Columns) -> Result<(), Error> {
///         match self {
///             Two::A(a) => to.encode_first(self, &a),
///             Two::B(a) => to.encode_second(self, &a),
///         }
///     }
///
///     ghost are_columns = { λ c. (refl, refl) };
/// }
/// // ..
/// impl WritesVariants<At<0>, At<2>, TwoColumns> for Two {
///     fn write(&self, to: &mut TwoColumns) -> Result<(), Error> {
///         WritesVariants::<At<0>, At<2>, Columns>::write(self, &mut to.0)
///     }
///
///     ghost are_columns = { λ c. (refl, refl) };
/// }
/// ```
pub trait WritesVariants<First: VariantNumber, End: VariantNumber, C: HoldsVariantColumns>: Enum {
    /// Reserves room for the payload of a value of these variants, and adds the payload to the columns of its variant.
    ///
    /// If an allocation fails, the error is `out of memory`. The error `length overflow` means that a number of arrays
    /// times their size exceeds 18446744073709551615.
    fn write(&self, to: &mut C) -> Result<(), Error>
        requires { (First.value ≤ Self.each.variants.index self.now)
            × (Self.each.variants.index self.now < End.value) }
        ensures others { KeepsOthers no_columns (Self.each.variants.index self.now - First.value)
            (C.columns.lists to.old) (C.columns.lists to.new) }
        ensures joined { OnOk result
            (Self.each.variants.joins self.now
            (columns_at (Self.each.variants.index self.now - First.value) (C.columns.lists to.old))
            (columns_at (Self.each.variants.index self.now - First.value)
            (C.columns.lists to.new))) }
        ensures form { emptied
            (columns_at (Self.each.variants.index self.now - First.value) (C.columns.lists to.new))
            ≡ emptied (columns_at (Self.each.variants.index self.now - First.value)
            (C.columns.lists to.old)) }
        ensures refused { IfErr result
            (λ e. IsWritingRefusal e.reason
            (Self.each.variants.overflows self.now
            (columns_at (Self.each.variants.index self.now - First.value)
            (C.columns.lists to.old)))) };

    // the columns are those of these variants
    ghost are_columns: { (c : C) → AreColumnsOf Self.Enum.each.variants.shapes First.value End.value
        (C.columns.lists c) };
}

/// Reserves room for a payload whose fields are borrowed separately, and adds it to the columns.
///
/// ```rust
/// let mut columns: TupleEncoder<IntEncoder<u8>, IntEncoder<u16>> = TupleEncoder::new(alloc);
/// encode_payload_fields(&mut columns, &(&7, &9))?;
/// assert_eq!(rt; columns.collect(alloc)?.as_slice(), [7, 9, 0].as_slice());
/// ```
pub fn encode_payload_fields<F: Fields, E: Buffer + Encoder<F::Whole> + FieldsEncoder<F>>(
    columns: &mut E,
    fields: &F,
) -> Result<(), Error>
    ensures joined { OnOk result
        (JoinsListing F.Whole.data.lists F.Whole.data.shape (F.whole fields.now)
        (E.columns columns.old) (E.columns columns.new)) }
    ensures form { emptied (E.columns columns.new) ≡ emptied
        (E.columns columns.old) }
    ensures refused { IfErr result
        (λ e. IsWritingRefusal e.reason
        (OverflowsWithListing F.Whole.data.lists F.Whole.data.shape (F.whole fields.now)
        (E.columns columns.old))) }
{
    fields.told();
    columns.reserve(1)?;
    columns.encode_fields(fields)
}
