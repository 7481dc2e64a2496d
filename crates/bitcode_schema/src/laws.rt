//! Laws that follow from the contracts of the calls by a schema. The functions only look at their values: their
//! contracts are the laws.
ghost use Rattle.std.specs.Prelude.{◌≡◌, ◌≢◌, Some, IfOk, IfErr};
ghost use Rattle.bitcode_memory.specs.declared.error.Reason.{Reason};
ghost use Rattle.bitcode_shapes.specs.Datum.{Datum};
ghost use Rattle.bitcode_derive.specs.Whole.{HasShortLengths, IsEncodingOf, SpellsDatum};
ghost use Rattle.bitcode_schema.specs.Decoding.{IsDecodingUnder};
ghost use Rattle.bitcode_schema.specs.Encoding.{HasDatum, IsEncodingOf as IsEncodingUnder};
ghost use Rattle.bitcode_schema.specs.Forms.{content_under, shape_of};

use crate::schema::Schema;
use bitcode_memory::error::{Error, Reason};
use bitcode_shapes::shaped::Shaped;
use bitcode_untyped::value::Value;

/// For the bytes that were written for a value by a schema, `decode_value` returns a value with the same content or
/// `out of memory`, if each column of lengths sums to less than 2251799813685247.
///
/// ```rust
/// let bytes = encode_value(alloc, &schema, &value)?;
/// let again = decode_value(alloc, &schema, &bytes);
/// comes_back(&schema, &value, &bytes, &again);
/// ```
pub fn comes_back(schema: &Schema, value: &Value, bytes: &[u8], again: &Result<Value, Error>)
    ensures same { IsEncodingUnder schema.now.root value.now bytes.now
        → HasShortLengths (HasDatum schema.now.root) (shape_of schema.now.root) value.now
        → IfOk again.now (λ v. IsDecodingUnder schema.now.root bytes.now v)
        → IfOk again.now
        (λ v. content_under schema.now.root v ≡ content_under schema.now.root value.now) }
    ensures refused { IsEncodingUnder schema.now.root value.now bytes.now
        → HasShortLengths (HasDatum schema.now.root) (shape_of schema.now.root) value.now
        → IfErr again.now
        (λ e. e.reason ≢ Reason.OutOfMemory → (d : Datum)
        → SpellsDatum (shape_of schema.now.root) bytes.now d → ⊥)
        → IfErr again.now (λ e. e.reason ≡ Reason.OutOfMemory) }
{}

/// For the bytes that `encode` writes for a value of a type, `decode_value` by a schema of the type's shape returns a
/// value with a listing of it, or `out of memory`. The lengths are as for [`comes_back`].
///
/// ```rust
/// let bytes = encode(alloc, &(true, 7u16))?;
/// let value = decode_value(alloc, &schema, &bytes);
/// reads_encoded(&(true, 7u16), &schema, &bytes, &value);
/// ```
pub fn reads_encoded<T: Shaped>(t: &T, schema: &Schema, bytes: &[u8], again: &Result<Value, Error>)
    ensures listed { T.data.shape ≡ shape_of schema.now.root
        → IsEncodingOf T.data.lists T.data.shape t.now bytes.now
        → HasShortLengths T.data.lists T.data.shape t.now
        → IfOk again.now (λ v. IsDecodingUnder schema.now.root bytes.now v)
        → IfOk again.now
        (λ v. (d : Datum) × (T.data.lists t.now d
        × (content_under schema.now.root v ≡ Some d))) }
    ensures refused { T.data.shape ≡ shape_of schema.now.root
        → IsEncodingOf T.data.lists T.data.shape t.now bytes.now
        → HasShortLengths T.data.lists T.data.shape t.now
        → IfErr again.now
        (λ e. e.reason ≢ Reason.OutOfMemory → (d : Datum)
        → SpellsDatum (shape_of schema.now.root) bytes.now d → ⊥)
        → IfErr again.now (λ e. e.reason ≡ Reason.OutOfMemory) }
{
    t.told();
}
