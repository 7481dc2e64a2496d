//! Durations as seconds and nanoseconds.
ghost use Rattle.std.specs.Prelude.{refl};
ghost use Rattle.bitcode_parts.specs.Durations.{duration_written_as};

use crate::convert::{ConvertFrom, ConvertInto};
use bitcode_memory::error::Error;
use bitcode_shapes::nanosecond::Nanosecond;
use std::alloc::Global;
use std::time::Duration;

/// How a `Duration` is written: its seconds, and its nanoseconds below one second.
pub type DurationEncode = (u64, u32);

/// What a `Duration` is made from.
pub type DurationDecode = (u64, Nanosecond);

impl ConvertInto<DurationEncode> for Duration {
    fn convert_into(&self) -> DurationEncode {
        (self.as_secs(), self.subsec_nanos())
    }

    ghost written_as = { duration_written_as };
}

impl ConvertFrom<DurationDecode> for Duration {
    fn convert_from(_alloc: Global, value: DurationDecode) -> Result<Self, Error> {
        Ok(Duration::new(value.0, value.1.into_inner()))
    }

    ghost same_shape = { refl };
}
