//! UUIDs, as their sixteen bytes.
ghost use Rattle.std.specs.Prelude.{refl};

use crate::convert::{ConvertFrom, ConvertInto};
use bitcode_memory::error::Error;
use std::alloc::Global;
use uuid::Uuid;

/// What a `Uuid` is written as and made from: its sixteen bytes, in their order.
pub type UuidConversion = [u8; 16];

impl ConvertInto<UuidConversion> for Uuid {
    fn convert_into(&self) -> UuidConversion {
        self.into_bytes()
    }

    ghost written_as = { record { columns = λ ds. refl; data_of = λ d of. of } };
}

impl ConvertFrom<UuidConversion> for Uuid {
    fn convert_from(_alloc: Global, value: UuidConversion) -> Result<Self, Error> {
        Ok(Uuid::from_bytes(value))
    }

    ghost same_shape = { refl };
}
