//! A container of numbers, written by hand: it is written as the sequence of its elements, and made of them.
ghost use Rattle.std.specs.Prelude.{◌≡◌, false, IfOk, IfErr};
ghost use Rattle.bitcode.specs.ByHand.{MakesOfElements, data_as, refl};

use bitcode::coder::{ColumnFree, HoldsData, NewDecoder, Result};
use bitcode::own::{FromElements, Sequence, encode_each};
use bitcode::{
    DecodeOwned, Decoder, EncodeMany, HasDecoder, HasEncoder, IntDecoder, IntEncoder, Reason,
    Shaped, VecDecoder, VecEncoder, View,
};
use std::alloc::Global;

/// The scores of a game, in the order in which they were made.
#[derive(Debug, PartialEq, Drop)]
pub struct Scores {
    pub list: Vec<u32>,
}

impl Shaped for Scores {
    ghost data = { data_as (λ s. s.list) (λ list. (record { list = list }, refl)) (λ s. refl)
        ⟦<Vec<u32> as Shaped>⟧.data };

    fn told(&self) {
        self.list.told();
    }
}

impl Sequence for Scores {
    type Element = u32;

    ghost items = { λ s. s.list.items };

    fn element_count(&self) -> usize {
        self.list.len()
    }

    fn encode_elements<E: EncodeMany<u32>>(&self, elements: &mut E) -> Result<()> {
        encode_each(elements, self.list.as_slice())
    }

    ghost items_are = { λ t h. h };

    ghost items_list = { λ t d l. l };

    ghost items_columns = { λ ds. refl };
}

impl FromElements for Scores {
    type Part = u32;

    fn from_elements(_alloc: Global, elements: Vec<u32>) -> Result<Scores>
        ensures made { IfOk result
            (λ t. MakesOfElements ⟦<Scores as Shaped>⟧.data.makes ⟦<u32 as Shaped>⟧.data.makes t
            elements.items) }
        ensures refused { IfErr result (λ e. e.reason ≡ Reason.OutOfMemory) }
    {
        Ok(Scores { list: elements })
    }
}

/// The decoder of scores: that of a sequence of numbers.
#[derive(Drop)]
pub struct ScoresDecoder<'a> {
    lists: VecDecoder<'a, IntDecoder<'a, u32>>,
}

type Lists<'a> = VecDecoder<'a, IntDecoder<'a, u32>>;

impl<'a> HoldsData for ScoresDecoder<'a> {
    ghost shape = { ⟦<Lists<'a> as HoldsData>⟧.shape };

    ghost held = { λ d. ⟦<Lists<'a> as HoldsData>⟧.held d.lists };

    ghost owned = { λ d. ⟦<Lists<'a> as HoldsData>⟧.owned d.lists };

    ghost free_inside = { λ d. ⟦<Lists<'a> as HoldsData>⟧.free_inside d.lists };
}

impl<'a> NewDecoder for ScoresDecoder<'a> {
    fn new(alloc: Global) -> Self {
        ScoresDecoder {
            lists: NewDecoder::new(alloc),
        }
    }

    fn column_free(&self) -> ColumnFree {
        self.lists.column_free()
    }
}

impl<'a> View<'a> for ScoresDecoder<'a> {
    fn read(&mut self, input: &mut &'a [u8], k: usize, strict: bool) -> Result<bool> {
        self.lists.read(input, k, strict)
    }
}

impl<'a> Decoder<Scores> for ScoresDecoder<'a> {
    ghost makes_free = { false };

    fn decode(&mut self) -> Result<Scores> {
        self.lists.decode_as()
    }

    ghost same_shape = { refl };
}

impl HasEncoder for Scores {
    type Encoder = VecEncoder<IntEncoder<u32>>;
}

impl<'a> HasDecoder<'a> for Scores {
    type Decoder = ScoresDecoder<'a>;
}

impl DecodeOwned for Scores {}
