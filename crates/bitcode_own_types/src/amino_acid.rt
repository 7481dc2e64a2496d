//! `AminoAcid` numbers its variants. What is below its declaration was written by `scripts/new_type`.
ghost use Rattle.std.specs.Prelude.{[], ◌∷◌, refl};
ghost use Rattle.bitcode.specs.ByHand.{bare_data};
ghost use Rattle.bitcode_own_types.specs.declared.amino_acid.AminoAcid.{AminoAcid};

use bitcode::own::{BareEncoder, BareShaped, BareVariants};
use bitcode::{DecodeOwned, HasDecoder, HasEncoder, Shaped, VariantDecoder};

/// What proteins are made of.
#[derive(Debug, Clone, Copy, PartialEq)]
pub enum AminoAcid {
    Alanine,
    Arginine,
    Asparagine,
    AsparticAcid,
    Cysteine,
    GlutamicAcid,
    Glutamine,
    Glycine,
    Histidine,
    Isoleucine,
    Leucine,
    Lysine,
    Methionine,
    Phenylalanine,
    Proline,
    Serine,
    Threonine,
    Tryptophan,
    Tyrosine,
    Valine,
}

impl BareVariants<20> for AminoAcid {
    ghost variant = { elim [
      | AminoAcid.Alanine ↦ 0
      | AminoAcid.Arginine ↦ 1
      | AminoAcid.Asparagine ↦ 2
      | AminoAcid.AsparticAcid ↦ 3
      | AminoAcid.Cysteine ↦ 4
      | AminoAcid.GlutamicAcid ↦ 5
      | AminoAcid.Glutamine ↦ 6
      | AminoAcid.Glycine ↦ 7
      | AminoAcid.Histidine ↦ 8
      | AminoAcid.Isoleucine ↦ 9
      | AminoAcid.Leucine ↦ 10
      | AminoAcid.Lysine ↦ 11
      | AminoAcid.Methionine ↦ 12
      | AminoAcid.Phenylalanine ↦ 13
      | AminoAcid.Proline ↦ 14
      | AminoAcid.Serine ↦ 15
      | AminoAcid.Threonine ↦ 16
      | AminoAcid.Tryptophan ↦ 17
      | AminoAcid.Tyrosine ↦ 18
      | AminoAcid.Valine ↦ 19
    ] };

    ghost values = { AminoAcid.Alanine ∷ AminoAcid.Arginine ∷ AminoAcid.Asparagine
        ∷ AminoAcid.AsparticAcid ∷ AminoAcid.Cysteine ∷ AminoAcid.GlutamicAcid ∷ AminoAcid.Glutamine
        ∷ AminoAcid.Glycine ∷ AminoAcid.Histidine ∷ AminoAcid.Isoleucine ∷ AminoAcid.Leucine
        ∷ AminoAcid.Lysine ∷ AminoAcid.Methionine ∷ AminoAcid.Phenylalanine ∷ AminoAcid.Proline
        ∷ AminoAcid.Serine ∷ AminoAcid.Threonine ∷ AminoAcid.Tryptophan ∷ AminoAcid.Tyrosine
        ∷ AminoAcid.Valine ∷ [] };

    ghost in_order = { (refl, refl) };

    ghost one_to_one = { elim [
      | AminoAcid.Alanine ↦ refl
      | AminoAcid.Arginine ↦ refl
      | AminoAcid.Asparagine ↦ refl
      | AminoAcid.AsparticAcid ↦ refl
      | AminoAcid.Cysteine ↦ refl
      | AminoAcid.GlutamicAcid ↦ refl
      | AminoAcid.Glutamine ↦ refl
      | AminoAcid.Glycine ↦ refl
      | AminoAcid.Histidine ↦ refl
      | AminoAcid.Isoleucine ↦ refl
      | AminoAcid.Leucine ↦ refl
      | AminoAcid.Lysine ↦ refl
      | AminoAcid.Methionine ↦ refl
      | AminoAcid.Phenylalanine ↦ refl
      | AminoAcid.Proline ↦ refl
      | AminoAcid.Serine ↦ refl
      | AminoAcid.Threonine ↦ refl
      | AminoAcid.Tryptophan ↦ refl
      | AminoAcid.Tyrosine ↦ refl
      | AminoAcid.Valine ↦ refl
    ] };

    fn index(&self) -> u8 {
        *self as u8
    }

    fn from_index(index: u8) -> Self {
        match index {
            0 => AminoAcid::Alanine,
            1 => AminoAcid::Arginine,
            2 => AminoAcid::Asparagine,
            3 => AminoAcid::AsparticAcid,
            4 => AminoAcid::Cysteine,
            5 => AminoAcid::GlutamicAcid,
            6 => AminoAcid::Glutamine,
            7 => AminoAcid::Glycine,
            8 => AminoAcid::Histidine,
            9 => AminoAcid::Isoleucine,
            10 => AminoAcid::Leucine,
            11 => AminoAcid::Lysine,
            12 => AminoAcid::Methionine,
            13 => AminoAcid::Phenylalanine,
            14 => AminoAcid::Proline,
            15 => AminoAcid::Serine,
            16 => AminoAcid::Threonine,
            17 => AminoAcid::Tryptophan,
            18 => AminoAcid::Tyrosine,
            _ => AminoAcid::Valine,
        }
    }
}

impl Shaped for AminoAcid {
    ghost data = { bare_data 20 ⟦<AminoAcid as BareVariants<20>>⟧.variant
        ⟦<AminoAcid as BareVariants<20>>⟧.values ⟦<AminoAcid as BareVariants<20>>⟧.in_order
        ⟦<AminoAcid as BareVariants<20>>⟧.one_to_one };

    fn told(&self) {
        let _index = self.index();
    }
}

impl BareShaped<20> for AminoAcid {
    ghost has_shape = { refl };

    ghost lists_bare = { λ t d h. h };

    ghost makes_bare = { λ d t h. h };
}

impl HasEncoder for AminoAcid {
    type Encoder = BareEncoder<20>;
}

impl<'a> HasDecoder<'a> for AminoAcid {
    type Decoder = VariantDecoder<'a, 20, true>;
}

impl DecodeOwned for AminoAcid {}
