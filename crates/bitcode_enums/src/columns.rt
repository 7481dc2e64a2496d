//! The columns of the payloads of an enum.
ghost use Rattle.std.specs.Prelude.{◌≡◌, ◌≤◌, ◌++◌, map, OnOk, IfErr};
ghost use Rattle.bitcode_memory.specs.declared.error.Reason.{Reason};
ghost use Rattle.bitcode_coder.specs.Columns.{emptied};
ghost use Rattle.bitcode_coder.specs.Coder.{BeginsWith};
ghost use Rattle.bitcode_coder.specs.Spelling.{columns_bytes};
ghost use Rattle.bitcode_enums.specs.HeldColumns.{HeldColumns};
ghost use Rattle.bitcode_enums.specs.ByNumber.{all_columns};

use bitcode_memory::error::{Error, Reason};
use std::alloc::Global;

/// What holds the columns of the payloads of consecutive variants. It has no functions, so that the checker passes it
/// faster than [`VariantColumns`].
pub trait HoldsVariantColumns {
    // what they hold
    ghost columns: { HeldColumns Self };
}

/// The columns of the payloads of consecutive variants: `Encoders2` to `Encoders4`, with one encoder for each variant,
/// [`TwoGroups`](crate::two_groups::TwoGroups) and [`NotCompared`](crate::not_compared::NotCompared) of these, and a
/// struct that belongs to an enum.
///
/// The struct forwards each call to the columns of all variants of the enum. So code that writes values does not depend
/// on the payload types.
///
/// ```rust,from:crates/bitcode_own_types/src/two.rt
/// #[derive(Drop)]
/// pub struct TwoColumns(Columns);
///
/// impl HoldsVariantColumns for TwoColumns {
///     ghost columns = { columns_in (λ c. c.0) ⟦<Columns as HoldsVariantColumns>⟧.columns };
/// }
///
/// impl VariantColumns for TwoColumns {
///     fn new(alloc: Global) -> Self {
///         TwoColumns(VariantColumns::new(alloc))
///     }
///
///     fn collect_all(&mut self, out: &mut Vec<u8>) -> Result<(), Error> {
///         self.0.collect_all(out)
///     }
///
///     fn clear_all(&mut self) {
///         self.0.clear_all();
///     }
/// }
/// ```
pub trait VariantColumns: HoldsVariantColumns {
    /// Creates empty columns without allocating.
    fn new(alloc: Global) -> Self
        ensures empty { Self.columns.lists result ≡ map emptied (Self.columns.lists result) }
        ensures capacity { Self.columns.capacity result ≡ 0 };

    /// Appends the columns of one variant after another to `out`, and empties them, as `Buffer::collect_into` does.
    fn collect_all(&mut self, out: &mut Vec<u8>) -> Result<(), Error>
        ensures written { OnOk result
            (out.new.items ≡ out.old.items ++ columns_bytes
            (all_columns (Self.columns.lists self.old))) }
        ensures empty { OnOk result
            (Self.columns.lists self.new ≡ map emptied (Self.columns.lists self.old)) }
        ensures begins { BeginsWith out.old.items out.new.items }
        ensures form { map emptied (Self.columns.lists self.new) ≡ map emptied
            (Self.columns.lists self.old) }
        ensures refused { IfErr result (λ e. e.reason ≡ Reason.OutOfMemory) };

    /// Drops all entries without allocating.
    fn clear_all(&mut self)
        ensures empty { Self.columns.lists self.new ≡ map emptied (Self.columns.lists self.old) }
        ensures capacity { Self.columns.capacity self.new ≤ Self.columns.capacity self.old };
}
