//! `Never` has no values. A field holds it as `Absent<Never>`. What is below its declaration was written by
//! `scripts/new_type`.
use bitcode::own::NoVariants;

/// There is no value.
#[derive(Clone, Copy)]
pub enum Never {}

impl NoVariants for Never {
    ghost never = { λ t P h. elim t [ ] };
}
