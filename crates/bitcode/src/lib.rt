//! A columnar, bit-packing serializer. This crate re-exports the names of the crates below it.
//!
//! `encode` encodes a value compactly, and `decode` decodes it or rejects the input:
//!
//! ```rust
//! let bytes = encode(alloc, &(true, 7u16))?;
//! assert_eq!(rt; bytes.as_slice(), [1, 7, 0].as_slice());
//! let pair: (bool, u16) = decode(alloc, &bytes)?;
//! assert!(rt; pair == (true, 7));
//! ```
//!
//! `serialize` and `deserialize` do the same for a `Value` without a Rust type, under a `Shape`, which may be
//! recursive:
//!
//! ```rust
//! let shape = Shape::new(vec![in alloc; ShapeNode::Bool]?, 0)?;
//! let bytes = serialize(alloc, &shape, &Value::Bool(true))?;
//! let value = deserialize(alloc, &shape, &bytes)?;
//! assert!(rt; value == Value::Bool(true));
//! ```
#![tactic(auto)]

pub use bitcode_coder::bool::{BoolDecoder, BoolEncoder};
pub use bitcode_coder::coder::{
    Decoder, EncodeMany, Encoder, HoldsData, MAX_VECTORED_CHUNK, NewDecoder, View,
};
pub use bitcode_coder::length::{Len, LengthDecoder, LengthEncoder};
pub use bitcode_coder::str::{ArrayStringDecoder, StrDecoder, StrEncoder};
pub use bitcode_columns::byte::Byte;
pub use bitcode_columns::histogram::histogram;
pub use bitcode_columns::pack::{
    pack_bools, pack_bytes, pack_bytes_less_than, unpack_bools, unpack_bytes,
    unpack_bytes_less_than,
};
pub use bitcode_derive::buffer::Buffer;
pub use bitcode_derive::derive::{Decode, DecodeOwned, Encode, HasDecoder, HasEncoder};
pub use bitcode_derive::map::{MapDecoder, MapEncoder};
pub use bitcode_derive::whole::{
    decode, decode_front, decode_front_strict, decode_strict, decode_within, encode, encode_into,
    invalid_enum_variant,
};
pub use bitcode_float_columns::split::{SplitBits, pack_f32s, unpack_f32s};
pub use bitcode_floats::float32::{F32Decoder, F32Encoder};
pub use bitcode_floats::float64::{F64Decoder, F64Encoder};
pub use bitcode_int_columns::pack_ints::{pack_ints, unpack_ints};
pub use bitcode_ints::checked::CheckedIntDecoder;
pub use bitcode_ints::int::{IntDecoder, IntEncoder};
pub use bitcode_ints::u8_char::{U8Char, U8CharEncoder};

// Input, errors, lists and integers, then the coders of containers, and the second format.
pub use bitcode_memory::consume::{
    consume_byte, consume_byte_arrays, consume_bytes, expect_eof, mul_length,
};
pub use bitcode_memory::error::{Error, Reason};
pub use bitcode_memory::fast::{
    CowSlice, FastSlice, FastVec, NextUnchecked, PushUnchecked, SliceImpl, VecImpl,
};
pub use bitcode_memory::ints::{Int, SizedInt, SizedUInt};
pub use bitcode_memory::minmax::minmax;
pub use bitcode_memory::refuse::{err, error};
pub use bitcode_parts::addresses::{
    IpAddrConversion, SocketAddrConversion, SocketAddrV4Conversion, SocketAddrV6Conversion,
};
pub use bitcode_parts::arrays::{ArrayDecoder, ArrayEncoder};
pub use bitcode_parts::choices::option::{OptionDecoder, OptionEncoder};
pub use bitcode_parts::choices::result::{ResultDecoder, ResultEncoder};
pub use bitcode_parts::choices::variant::{VariantDecoder, VariantEncoder};
pub use bitcode_parts::convert::{
    ConvertFrom, ConvertFromDecoder, ConvertInto, ConvertIntoEncoder, FromDecoder,
};
pub use bitcode_parts::durations::{DurationDecode, DurationEncode};
pub use bitcode_parts::empty::EmptyCoder;
pub use bitcode_parts::fixed_capacity::ArrayVecDecoder;
pub use bitcode_parts::lists::vec::{VecDecoder, VecEncoder};
pub use bitcode_parts::pointers::deref::DerefEncoder;
pub use bitcode_parts::uuids::UuidConversion;
pub use bitcode_serde::deserialize::{
    REF_LIMIT, deserialize, deserialize_strict, deserialize_within,
};
pub use bitcode_serde::free::ZST_LIMIT;
pub use bitcode_serde::serialize::serialize;
pub use bitcode_shapes::keys::Key;
pub use bitcode_shapes::nanosecond::Nanosecond;
pub use bitcode_shapes::shaped::{Made, Shaped};
pub use bitcode_tuples::decoder::TupleDecoder;
pub use bitcode_tuples::encoder::TupleEncoder;
pub use bitcode_untyped::shape::{Shape, ShapeNode};
pub use bitcode_untyped::value::Value;

/// The building blocks of coders for your own types. `scripts/new_type` uses them, and few programs need them directly.
pub mod own {
    pub use bitcode_coder::lends::Lends;
    pub use bitcode_coder::part::Part;
    pub use bitcode_derive::closed::reserve_as;
    use bitcode_derive::derive::HasDecoder;
    pub use bitcode_enums::columns::{HoldsVariantColumns, VariantColumns};
    pub use bitcode_enums::decoder::EnumDecoder;
    pub use bitcode_enums::encoder::EnumEncoder;
    pub use bitcode_enums::enums::{Enum, EnumOf, told_as};
    pub use bitcode_enums::not_compared::NotCompared;
    pub use bitcode_enums::number::At;
    pub use bitcode_enums::payloads::{
        HoldsPayloads, NewPayloads, PayloadsDecoder, PayloadsOf, PayloadsView,
    };
    pub use bitcode_enums::two_groups::TwoGroups;
    pub use bitcode_enums::variants::of_2::{
        Decoders2, DecodersOf2, Encoders2, EncodersOf2, OneOf2, Variants2,
    };
    pub use bitcode_enums::variants::of_3::{
        Decoders3, DecodersOf3, Encoders3, EncodersOf3, OneOf3, Variants3,
    };
    pub use bitcode_enums::variants::of_4::{
        Decoders4, DecodersOf4, Encoders4, EncodersOf4, OneOf4, Variants4,
    };
    pub use bitcode_enums::writes::WritesVariants;
    pub use bitcode_int_columns::column_int::ColumnInt;
    pub use bitcode_ints::checked::Checked;
    pub use bitcode_ints::int::AsInt;
    pub use bitcode_parts::choices::bare::BareEncoder;
    pub use bitcode_parts::choices::variant::encode_payload;
    use bitcode_parts::convert::ConvertFromDecoder;
    pub use bitcode_parts::lists::sequence::{
        FromElements, Sequence, decode_each, encode_each, encode_lent,
    };
    pub use bitcode_parts::maps::Mapping;
    pub use bitcode_shapes::bare_variants::{BareShaped, BareVariants};
    pub use bitcode_shapes::no_variants::{Absent, NoVariants};
    pub use bitcode_structs::checked::{CheckedDecoder, FromChecked};
    pub use bitcode_structs::decoded::{Decoded, FromDecoded, PrivateDecoder};
    pub use bitcode_structs::parts::reserve_part;
    pub use bitcode_tuples::fields::Fields;
    pub use bitcode_tuples::has_field::{HasField, Nth};
    pub use bitcode_tuples::part_encoder::{PartEncoder, PartOf, PartsEncoder};
    pub use bitcode_tuples::struct_encoder::{InFields, StructEncoder};

    /// The decoder of a struct, which corresponds to the tuple `P` of its fields.
    pub type DecoderOfFields<'a, P> = ConvertFromDecoder<P, <P as HasDecoder<'a>>::Decoder>;

    /// The decoder of a struct with private fields, which corresponds to the tuple `P` of its fields.
    pub type DecoderOfPrivate<'a, P> = PrivateDecoder<P, <P as HasDecoder<'a>>::Decoder>;

    /// The decoder of a struct whose constructor checks the tuple `P` of its fields.
    pub type DecoderOfChecked<'a, T, P> = CheckedDecoder<T, P, <P as HasDecoder<'a>>::Decoder>;
}

/// The traits of coders, the result type of their calls, calls that write one value, what a decoder tells about
/// elements without columns, and `both`, which combines the results of two reads.
pub mod coder {
    pub use bitcode_coder::coder::{
        Buffer, Decoder, EncodeMany, Encoder, HoldsColumns, HoldsData, NewDecoder, View, both,
        encode_parts,
    };
    pub use bitcode_coder::column_free::ColumnFree;
    pub use bitcode_coder::one::{write_length, write_one};
    pub use bitcode_coder::result::Result;
}

/// The second format: the coders of variant indices, for up to 256 variants, and the calls for Rust types without a
/// `Value`, recursive types among them.
pub mod serde {
    pub use bitcode_serde::serde::{VariantDecoder, VariantEncoder};
    pub use bitcode_serde_types::deserialize_as::{
        DeserializeAs, deserialize_as, deserialize_as_within,
    };
    pub use bitcode_serde_types::has_shape::HasShape;
    pub use bitcode_serde_types::serialize_as::{SerializeAs, serialize_as};
}

/// Sealed bytes: the bytes from `encode` with a header and a checksum, for all data that leaves the program.
pub mod sealed {
    pub use bitcode_sealed::bytes::{seal_bytes, split_sealed};
    pub use bitcode_sealed::crc::crc_32;
    pub use bitcode_sealed::earlier::Earlier;
    pub use bitcode_sealed::error::OpenError;
    pub use bitcode_sealed::front::{next_head, read_label, skip_sealed};
    pub use bitcode_sealed::label::{Expected, Label};
    pub use bitcode_sealed::laws::{comes_back, damage_in_front_is_seen, damage_is_seen};
    pub use bitcode_sealed::next::{Next, open_next};
    pub use bitcode_sealed::values::{open, open_front, seal, seal_into};
    pub use bitcode_sealed::version_laws::earlier_comes_back;
    pub use bitcode_sealed::versions::{
        OneVersion, ReadsVersions, Version, Versioned, open_any, open_version,
    };
}

/// The laws of columns, of data and of the calls for whole values. The functions do nothing, except `short_text`, which
/// is `decode`: their contracts are the laws.
pub mod laws {
    pub use bitcode_coder::laws::{
        all_columns, joined_data, joined_texts, one_column, strict_data, tree_and_list,
    };
    pub use bitcode_columns::laws::{bool_columns, byte_columns, int_columns, variant_columns};
    pub use bitcode_derive::laws::{
        borrowed_text, borrowed_texts, comes_back, comes_back_equal, comes_back_in_bytes,
        comes_back_strictly, no_lengths, one_fault, one_text, one_value, overflows_exactly,
        round_trip, same_bytes, short_text, strictly_written,
    };
    pub use bitcode_float_columns::laws::split_columns;
    pub use bitcode_shapes::shaped::told_exactly;
    pub use bitcode_untyped::laws::{
        columns_decide, every_shape, faults_tell, one_value_of_a_datum, spelled_data,
        strictly_spelled_data,
    };
}
