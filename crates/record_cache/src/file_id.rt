//! `FileId` corresponds to the tuple of its fields. What is below its declaration was written by `scripts/new_type`.
ghost use Rattle.bitcode.specs.ByHand.{data_as, field_alike, pair_alike, refl};

use bitcode::own::{DecoderOfFields, HasField, InFields, Nth, StructEncoder};
use bitcode::{ConvertFrom, DecodeOwned, Error, HasDecoder, HasEncoder, Key, Shaped};
use std::alloc::Global;

/// Which file: a device, and the number of the file there.
#[derive(Debug, Clone, Copy, PartialEq, Eq, PartialOrd, Ord, Hash)]
pub struct FileId {
    pub device: u64,
    pub number: u64,
}

impl Shaped for FileId {
    ghost data = { data_as (λ t. (t.device, t.number))
        (λ p. (record { device = p.0; number = p.1 }, refl)) (λ t. refl)
        ⟦<(u64, u64) as Shaped>⟧.data };

    fn told(&self) {
        self.device.told();
        self.number.told();
    }
}

impl ConvertFrom<(u64, u64)> for FileId {
    fn convert_from(_alloc: Global, (device, number): (u64, u64)) -> Result<Self, Error> {
        Ok(FileId { device, number })
    }

    ghost same_shape = { refl };
}

impl HasField<0> for FileId {
    type Field = u64;

    ghost field = { λ t. t.device };

    fn field(&self) -> &u64 {
        &self.device
    }
}

impl HasField<1> for FileId {
    type Field = u64;

    ghost field = { λ t. t.number };

    fn field(&self) -> &u64 {
        &self.number
    }
}

impl InFields for FileId {
    type Numbers = (Nth<0>, Nth<1>);

    type Inside = (u64, u64);

    ghost same_columns = { refl };

    ghost of_fields = { λ d h. h };

    ghost same_listings = { λ t. pair_alike field_alike field_alike };
}

impl HasEncoder for FileId {
    type Encoder = StructEncoder<<(u64, u64) as HasEncoder>::Encoder>;
}

impl<'a> HasDecoder<'a> for FileId {
    type Decoder = DecoderOfFields<'a, (u64, u64)>;
}

impl DecodeOwned for FileId {}

impl Key for FileId {
    ghost equal = { refl };

    ghost ordered = { refl };
}
