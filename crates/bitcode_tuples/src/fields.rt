//! The fields of a tuple, borrowed separately, and encoders that accept them like this.
ghost use Rattle.std.specs.Prelude.{◌≡◌, ◌≢◌, ◌+◌, ◌<◌, ◌≤◌, IsTrue, OnOk, IfErr};
ghost use Rattle.bitcode_coder.specs.Columns.{emptied};
ghost use Rattle.bitcode_coder.specs.Coder.{BeginsWith, JoinsListing, WritesListing, OverflowsWithListing};
ghost use Rattle.bitcode_coder.specs.Coder.{IsWritingRefusal};

use crate::encoder::TupleEncoder;
use bitcode_coder::coder::{Buffer, Encoder, HoldsColumns};
use bitcode_coder::one::write_one;
use bitcode_memory::error::{Error, Reason};
use bitcode_shapes::shaped::Shaped;

/// References to the fields of a value: to its only field, or a pair of the first one and the rest.
///
/// ```
/// let player = ("ab", 7u8, 9u32);
/// let fields = (&player.0, (&player.1, &player.2));
/// ```
pub trait Fields {
    type Whole: Shaped;

    // what the fields make up
    ghost whole: { Self → Self.Whole };

    /// The value with these fields satisfies its type's invariant.
    fn told(&self)
        ensures { Self.Whole.data.is_value (whole self.now) };
}

impl<'a, P: Shaped> Fields for &'a P {
    type Whole = P;

    ghost whole = { λ p. p.now };

    fn told(&self) {
        (**self).told();
    }
}

impl<F: Fields, G: Fields> Fields for (F, G) {
    type Whole = (F::Whole, G::Whole);

    ghost whole = { λ f. (F.whole f.0, G.whole f.1) };

    fn told(&self) {
        self.0.told();
        self.1.told();
    }
}

/// Like `Encoder`, for values whose fields are borrowed separately, as those of a struct are.
pub trait FieldsEncoder<F: Fields>: HoldsColumns {
    /// Adds the value with these fields to the columns, as `Encoder::encode` does. The caller must have reserved room
    /// for it.
    ///
    /// Errors: those of `encode`.
    ///
    /// ```rust
    /// let mut columns: TupleEncoder<IntEncoder<u8>, IntEncoder<u8>> = TupleEncoder::new(alloc);
    /// columns.reserve(1)?;
    /// columns.encode_fields(&(&1, &2))?;
    /// assert_eq!(rt; columns.collect(alloc)?.as_slice(), [1, 2].as_slice());
    /// ```
    fn encode_fields(&mut self, fields: &F) -> Result<(), Error>
        requires { 0 < Self.room self.old }
        ensures joined { OnOk result
            (JoinsListing F.Whole.data.lists F.Whole.data.shape (F.whole fields.now)
            (Self.columns self.old)
            (Self.columns self.new)) }
        ensures room { OnOk result (Self.room self.old ≤ Self.room self.new + 1) }
        ensures form { emptied (Self.columns self.new) ≡ emptied (Self.columns self.old) }
        ensures refused { IfErr result
            (λ e. IsWritingRefusal e.reason
            (OverflowsWithListing F.Whole.data.lists F.Whole.data.shape (F.whole fields.now)
            (Self.columns self.old))) }
        ensures free { IsTrue Self.writes_free
            → IfErr result (λ e. e.reason ≢ Reason.OutOfMemory) };

    /// Appends the columns of the fields to `out`, like `write_one`. The encoder has no entries before and after.
    ///
    /// Errors: those of [`FieldsEncoder::encode_fields`]. `out` then begins with what it held.
    fn write_fields(&mut self, fields: &F, out: &mut Vec<u8>) -> Result<(), Error>
        requires { Self.columns self.old ≡ emptied (Self.columns self.old) }
        ensures written { OnOk result
            (WritesListing F.Whole.data.lists F.Whole.data.shape (F.whole fields.now)
            (Self.columns self.old)
            out.old.items out.new.items) }
        ensures empty { OnOk result (Self.columns self.new ≡ emptied (Self.columns self.old)) }
        ensures begins { BeginsWith out.old.items out.new.items }
        ensures form { emptied (Self.columns self.new) ≡ emptied (Self.columns self.old) }
        ensures refused { IfErr result
            (λ e. IsWritingRefusal e.reason
            (OverflowsWithListing F.Whole.data.lists F.Whole.data.shape (F.whole fields.now)
            (Self.columns self.old))) };
}

impl<'a, P: Shaped, E: Buffer + Encoder<P>> FieldsEncoder<&'a P> for E {
    fn encode_fields(&mut self, fields: &&'a P) -> Result<(), Error> {
        self.encode(*fields)
    }

    fn write_fields(&mut self, fields: &&'a P, out: &mut Vec<u8>) -> Result<(), Error> {
        write_one(self, *fields, out)
    }
}

impl<F: Fields, G: Fields, A: FieldsEncoder<F>, B: FieldsEncoder<G>> FieldsEncoder<(F, G)>
    for TupleEncoder<A, B> {
    fn encode_fields(&mut self, fields: &(F, G)) -> Result<(), Error> {
        fields.1.told();
        self.first.encode_fields(&fields.0)?;
        self.second.encode_fields(&fields.1)
    }

    fn write_fields(&mut self, fields: &(F, G), out: &mut Vec<u8>) -> Result<(), Error> {
        fields.1.told();
        self.first.write_fields(&fields.0, out)?;
        self.second.write_fields(&fields.1, out)
    }
}
