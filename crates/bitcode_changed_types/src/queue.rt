//! `Queue` corresponds to the tuple of its fields. What is below its declaration was written by `scripts/new_type`.
ghost use Rattle.std.specs.Prelude.{◌≡◌};
ghost use Rattle.bitcode.specs.ByHand.{data_as, field_alike, pair_alike, refl};

use crate::hurry::Hurry;
use crate::state::State;
use crate::state_of1::StateOf1;
use crate::state_of2::StateOf2;
use bitcode::own::{DecoderOfFields, HasField, InFields, Nth, StructEncoder};
use bitcode::sealed::{
    Earlier, Expected, OpenError, ReadsVersions, Version, Versioned, open_version,
};
use bitcode::{ConvertFrom, DecodeOwned, Error, HasDecoder, HasEncoder, Shaped};
use std::alloc::Global;
use std::collections::BTreeMap;

/// Work that waits: where each piece of it is, by its number.
#[derive(Debug, PartialEq, Drop)]
pub struct Queue {
    pub states: BTreeMap<u32, State>,
    pub hurry: Hurry,
}

impl Shaped for Queue {
    ghost data = { data_as (λ t. (t.states, t.hurry))
        (λ p. (record { states = p.0; hurry = p.1 }, refl)) (λ t. refl)
        ⟦<(BTreeMap<u32, State>, Hurry) as Shaped>⟧.data };

    fn told(&self) {
        self.states.told();
        self.hurry.told();
    }
}

impl ConvertFrom<(BTreeMap<u32, State>, Hurry)> for Queue {
    fn convert_from(
        _alloc: Global,
        (states, hurry): (BTreeMap<u32, State>, Hurry),
    ) -> Result<Self, Error> {
        Ok(Queue { states, hurry })
    }

    ghost same_shape = { refl };
}

impl HasField<0> for Queue {
    type Field = BTreeMap<u32, State>;

    ghost field = { λ t. t.states };

    fn field(&self) -> &BTreeMap<u32, State> {
        &self.states
    }
}

impl HasField<1> for Queue {
    type Field = Hurry;

    ghost field = { λ t. t.hurry };

    fn field(&self) -> &Hurry {
        &self.hurry
    }
}

impl InFields for Queue {
    type Numbers = (Nth<0>, Nth<1>);

    type Inside = (BTreeMap<u32, State>, Hurry);

    ghost same_columns = { refl };

    ghost of_fields = { λ d h. h };

    ghost same_listings = { λ t. pair_alike field_alike field_alike };
}

impl HasEncoder for Queue {
    type Encoder = StructEncoder<<(BTreeMap<u32, State>, Hurry) as HasEncoder>::Encoder>;
}

impl<'a> HasDecoder<'a> for Queue {
    type Decoder = DecoderOfFields<'a, (BTreeMap<u32, State>, Hurry)>;
}

impl DecodeOwned for Queue {}

/// `Queue` as it was in version 2.
pub type QueueOf2 = (BTreeMap<u32, StateOf2>, Hurry);

impl Earlier<2> for Queue {
    type Before = QueueOf2;

    ghost is_upgrade = { λ b t. (⟦<BTreeMap<u32, State> as Earlier<2>>⟧.is_upgrade b.0 t.states)
        × (t.hurry ≡ b.1) };

    fn upgrade(alloc: Global, (states, hurry): QueueOf2) -> Result<Self, Error> {
        Ok(Queue {
            states: <BTreeMap<u32, State> as Earlier<2>>::upgrade(alloc, states)?,
            hurry,
        })
    }
}

/// Opens version 2 of `Queue`.
pub struct QueueVersion2 {}

impl<'a> ReadsVersions<'a, Queue> for QueueVersion2 {
    type Inside = ();

    ghost includes = { ⟦<Version<2> as ReadsVersions<'a, Queue>>⟧.includes };

    ghost opens = { ⟦<Version<2> as ReadsVersions<'a, Queue>>⟧.opens };

    ghost refuses = { ⟦<Version<2> as ReadsVersions<'a, Queue>>⟧.refuses };

    fn includes(version: u16) -> bool {
        version == 2
    }

    fn open_earlier(
        alloc: Global,
        expected: &Expected,
        bytes: &'a [u8],
    ) -> Result<Queue, OpenError> {
        open_version::<Version<2>, Queue>(alloc, expected, bytes)
    }
}

/// `Queue` as it was in version 1.
pub type QueueOf1 = BTreeMap<u32, StateOf1>;

impl Earlier<1> for Queue {
    ghost use Rattle.bitcode_changed_types.specs.declared.hurry.Hurry.{Hurry};

    type Before = QueueOf1;

    ghost is_upgrade = { λ b t. (⟦<BTreeMap<u32, State> as Earlier<1>>⟧.is_upgrade b t.states)
        × (t.hurry ≡ Hurry.High) };

    fn upgrade(alloc: Global, states: QueueOf1) -> Result<Self, Error> {
        Ok(Queue {
            states: <BTreeMap<u32, State> as Earlier<1>>::upgrade(alloc, states)?,
            hurry: Hurry::High,
        })
    }
}

/// Opens version 1 of `Queue`.
pub struct QueueVersion1 {}

impl<'a> ReadsVersions<'a, Queue> for QueueVersion1 {
    type Inside = ();

    ghost includes = { ⟦<Version<1> as ReadsVersions<'a, Queue>>⟧.includes };

    ghost opens = { ⟦<Version<1> as ReadsVersions<'a, Queue>>⟧.opens };

    ghost refuses = { ⟦<Version<1> as ReadsVersions<'a, Queue>>⟧.refuses };

    fn includes(version: u16) -> bool {
        version == 1
    }

    fn open_earlier(
        alloc: Global,
        expected: &Expected,
        bytes: &'a [u8],
    ) -> Result<Queue, OpenError> {
        open_version::<Version<1>, Queue>(alloc, expected, bytes)
    }
}

impl Versioned for Queue {
    type Versions = (QueueVersion2, QueueVersion1);

    type Numbers = (Version<2>, Version<1>);
}
