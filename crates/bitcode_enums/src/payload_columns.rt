//! The columns of the payloads of all variants of an enum, one variant after another.
ghost use Rattle.std.specs.Prelude.{◌≡◌, false, OnOk, IfErr};
ghost use Rattle.bitcode_coder.specs.Columns.{emptied};
ghost use Rattle.bitcode_coder.specs.Coder.{endless_room, IsWritingRefusal};
ghost use Rattle.bitcode_enums.specs.ByNumber.{all_columns};
ghost use Rattle.bitcode_enums.specs.Writing.{JoinsVariant, OverflowsWithVariant};

use crate::columns::{HoldsVariantColumns, VariantColumns};
use crate::enums::{Enum, EnumOf};
use crate::number::At;
use crate::writes::WritesVariants;
use bitcode_coder::coder::{Buffer, HoldsColumns};
use bitcode_memory::error::Error;
use std::alloc::Global;

/// The columns of the payloads of an enum, those of the first variant first. `C` holds them by variant.
///
/// ```
/// let mut payloads: PayloadColumns<ShotColumns> = PayloadColumns::new(alloc);
/// payloads.encode_payload::<2, Shot>(&Shot::Hit(7))?;
/// payloads.collect_into(&mut bytes)?; // [7]
/// ```
#[derive(Drop)]
pub struct PayloadColumns<C> {
    columns: C,
}

impl<C: HoldsVariantColumns> HoldsColumns for PayloadColumns<C> {
    ghost columns = { λ e. all_columns (C.columns.lists e.columns) };

    ghost room = { λ e. endless_room };

    ghost capacity = { λ e. C.columns.capacity e.columns };

    ghost surely_overflows = { λ e n. ⊥ };

    ghost overflows = { λ e n. ⊥ };

    ghost writes_free = { false };
}

impl<C: VariantColumns> Buffer for PayloadColumns<C> {
    fn new(alloc: Global) -> Self {
        PayloadColumns {
            columns: C::new(alloc),
        }
    }

    // Room is made for each payload as it comes.
    fn reserve(&mut self, _n: usize) -> Result<(), Error> {
        Ok(())
    }

    fn collect_into(&mut self, out: &mut Vec<u8>) -> Result<(), Error> {
        self.columns.collect_all(out)
    }

    fn clear(&mut self) {
        self.columns.clear_all();
    }
}

impl<C: HoldsVariantColumns> PayloadColumns<C> {
    /// Reserves room for the payload of a value in the columns of its variant, and adds the payload to them.
    ///
    /// Errors: those of [`WritesVariants::write`].
    pub fn encode_payload<const N: usize, T: EnumOf<N> + WritesVariants<At<0>, At<N>, C>>(
        &mut self,
        t: &T,
    ) -> Result<(), Error>
        ensures joined { OnOk result
            (JoinsVariant T.each.variants.index T.each.variants.lists T.each.variants.shapes t.now
            (all_columns (C.columns.lists self.old.columns))
            (all_columns (C.columns.lists self.new.columns))) }
        ensures form { emptied (all_columns (C.columns.lists self.new.columns)) ≡ emptied
            (all_columns (C.columns.lists self.old.columns)) }
        ensures refused { IfErr result
            (λ e. IsWritingRefusal e.reason
            (OverflowsWithVariant T.each.variants.index T.each.variants.lists T.each.variants.shapes
            t.now (all_columns (C.columns.lists self.old.columns)))) }
    {
        WritesVariants::<At<0>, At<N>, C>::write(t, &mut self.columns)
    }
}
