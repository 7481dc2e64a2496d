//! Type markers, which have no column, as the unit has none.
ghost use Rattle.std.specs.Prelude.{refl, true};

use crate::empty::EmptyCoder;
use bitcode_coder::coder::{Decoder, EncodeMany, Encoder, encode_parts};
use bitcode_coder::part::Part;
use bitcode_memory::error::Error;
use std::marker::PhantomData;

impl<T> Encoder<PhantomData<T>> for EmptyCoder {
    fn encode(&mut self, _t: &PhantomData<T>) -> Result<(), Error> {
        Ok(())
    }

    ghost of_shape = { λ e. refl };

    ghost surely = { λ e n h. absurd h };
}

impl<T> EncodeMany<PhantomData<T>> for EmptyCoder {
    fn encode_part_of_each<S, W: Part<S, PhantomData<T>>>(
        &mut self,
        items: &[S],
        which: &W,
        _first: &PhantomData<T>,
    ) -> Result<(), Error> {
        encode_parts(self, items, which)
    }

    ghost of_shape = { λ e. refl };

    ghost surely = { λ e n h. absurd h };
}

impl<T> Decoder<PhantomData<T>> for EmptyCoder {
    ghost makes_free = { true };

    fn decode(&mut self) -> Result<PhantomData<T>, Error> {
        Decoder::<()>::decode(self)?;
        Ok(PhantomData)
    }

    ghost same_shape = { refl };
}
