//! An enum without variants: `Absent` of it is encoded and decoded, as of any type without values.
use bitcode::own::{Absent, NoVariants};

/// There is no value.
#[derive(Clone, Copy)]
pub enum Nobody {}

impl NoVariants for Nobody {
    ghost never = { λ t P h. elim t [ ] };
}

/// A type without values that can be encoded.
pub type Never = Absent<Nobody>;
