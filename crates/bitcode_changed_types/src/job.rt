//! `Job` corresponds to the tuple of its fields. What is below its declaration was written by `scripts/new_type`.
ghost use Rattle.std.specs.Prelude.{◌≡◌};
ghost use Rattle.bitcode.specs.ByHand.{data_as, field_alike, pair_alike, refl};

use bitcode::own::{DecoderOfFields, HasField, InFields, Nth};
use bitcode::sealed::{
    Earlier, Expected, OpenError, ReadsVersions, Version, Versioned, open_version,
};
use bitcode::{ConvertFrom, DecodeOwned, Error, HasDecoder, HasEncoder, Shaped};
use std::alloc::Global;

/// A piece of work. Version 1 had no tries; versions 1 and 2 had the host, and neither a weight nor a delay.
#[derive(Debug, PartialEq, Drop)]
pub struct Job {
    pub number: u64,
    pub name: String,
    pub tries: u8,
    pub weight: u8,
    pub delay: Option<u32>,
}

type Parts = (u64, String, u8, u8, Option<u32>);

impl Shaped for Job {
    ghost data = { data_as (λ t. (t.number, t.name, t.tries, t.weight, t.delay))
        (λ p. (record { number = p.0; name = p.1; tries = p.2; weight = p.3; delay = p.4 }, refl))
        (λ t. refl) ⟦<Parts as Shaped>⟧.data };

    fn told(&self) {
        self.number.told();
        self.name.told();
        self.tries.told();
        self.weight.told();
        self.delay.told();
    }
}

impl ConvertFrom<Parts> for Job {
    fn convert_from(_alloc: Global, parts: Parts) -> Result<Self, Error> {
        let (number, name, tries, weight, delay) = parts;
        Ok(Job {
            number,
            name,
            tries,
            weight,
            delay,
        })
    }

    ghost same_shape = { refl };
}

impl HasField<0> for Job {
    type Field = u64;

    ghost field = { λ t. t.number };

    fn field(&self) -> &u64 {
        &self.number
    }
}

impl HasField<1> for Job {
    type Field = String;

    ghost field = { λ t. t.name };

    fn field(&self) -> &String {
        &self.name
    }
}

impl HasField<2> for Job {
    type Field = u8;

    ghost field = { λ t. t.tries };

    fn field(&self) -> &u8 {
        &self.tries
    }
}

impl HasField<3> for Job {
    type Field = u8;

    ghost field = { λ t. t.weight };

    fn field(&self) -> &u8 {
        &self.weight
    }
}

impl HasField<4> for Job {
    type Field = Option<u32>;

    ghost field = { λ t. t.delay };

    fn field(&self) -> &Option<u32> {
        &self.delay
    }
}

impl InFields for Job {
    type Numbers = ((Nth<0>, Nth<1>), (Nth<2>, (Nth<3>, Nth<4>)));

    type Inside = Parts;

    ghost same_columns = { refl };

    ghost of_fields = { λ d h. h };

    ghost same_listings = { λ t. pair_alike (pair_alike field_alike field_alike)
        (pair_alike field_alike (pair_alike field_alike field_alike)) };
}

impl HasEncoder for Job {
    type Encoder = <Parts as HasEncoder>::Encoder;
}

impl<'a> HasDecoder<'a> for Job {
    type Decoder = DecoderOfFields<'a, Parts>;
}

impl DecodeOwned for Job {}

/// `Job` as it was in version 2.
pub type JobOf2 = (u64, String, String, u8);

impl Earlier<2> for Job {
    type Before = JobOf2;

    ghost is_upgrade = { λ b t. (t.number ≡ b.0) × (t.name ≡ b.2) × (t.tries ≡ b.3) × (t.weight ≡ 2)
        × (⟦<Option<u32> as Default>⟧.is_default t.delay) };

    fn upgrade(_alloc: Global, (number, _host, name, tries): JobOf2) -> Result<Self, Error> {
        Ok(Job {
            number,
            name,
            tries,
            weight: 2,
            delay: Default::default(),
        })
    }
}

/// Opens version 2 of `Job`.
pub struct JobVersion2 {}

impl<'a> ReadsVersions<'a, Job> for JobVersion2 {
    type Inside = ();

    ghost includes = { ⟦<Version<2> as ReadsVersions<'a, Job>>⟧.includes };

    ghost opens = { ⟦<Version<2> as ReadsVersions<'a, Job>>⟧.opens };

    ghost refuses = { ⟦<Version<2> as ReadsVersions<'a, Job>>⟧.refuses };

    fn includes(version: u16) -> bool {
        version == 2
    }

    fn open_earlier(alloc: Global, expected: &Expected, bytes: &'a [u8]) -> Result<Job, OpenError> {
        open_version::<Version<2>, Job>(alloc, expected, bytes)
    }
}

/// `Job` as it was in version 1.
pub type JobOf1 = (u64, String, String);

impl Earlier<1> for Job {
    type Before = JobOf1;

    ghost is_upgrade = { λ b t. (t.number ≡ b.0) × (t.name ≡ b.2) × (t.tries ≡ 5) × (t.weight ≡ 2)
        × (⟦<Option<u32> as Default>⟧.is_default t.delay) };

    fn upgrade(_alloc: Global, (number, _host, name): JobOf1) -> Result<Self, Error> {
        Ok(Job {
            number,
            name,
            tries: 5,
            weight: 2,
            delay: Default::default(),
        })
    }
}

/// Opens version 1 of `Job`.
pub struct JobVersion1 {}

impl<'a> ReadsVersions<'a, Job> for JobVersion1 {
    type Inside = ();

    ghost includes = { ⟦<Version<1> as ReadsVersions<'a, Job>>⟧.includes };

    ghost opens = { ⟦<Version<1> as ReadsVersions<'a, Job>>⟧.opens };

    ghost refuses = { ⟦<Version<1> as ReadsVersions<'a, Job>>⟧.refuses };

    fn includes(version: u16) -> bool {
        version == 1
    }

    fn open_earlier(alloc: Global, expected: &Expected, bytes: &'a [u8]) -> Result<Job, OpenError> {
        open_version::<Version<1>, Job>(alloc, expected, bytes)
    }
}

impl Versioned for Job {
    type Versions = (JobVersion2, JobVersion1);

    type Numbers = (Version<2>, Version<1>);
}
