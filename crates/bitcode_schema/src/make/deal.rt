//! Choices, from their variants and the payloads of each variant.
#![tactic(auto)]

ghost use Rattle.std.specs.Prelude.{map, IfOk};
ghost use Rattle.bitcode_schema.specs.Making.{Deals, AreDealt};

use bitcode_memory::error::{Error, Reason};
use bitcode_memory::refuse::err;
use bitcode_untyped::value::Value;
use std::alloc::Global;
use std::collections::VecDeque;

// Takes the next payload of a variant. As many were made as the variant has, so one is never missing.
fn next(payloads: &mut Vec<VecDeque<Value>>, variant: usize) -> Result<Value, Error>
    ensures { IfOk result
        (λ value. Deals variant value (map (λ p. p.items) payloads.old.items)
        (map (λ p. p.items) payloads.new.items)) }
{
    if variant >= payloads.len() {
        return err(Reason::OutOfMemory);
    }
    match payloads[variant].pop_front() {
        Some(value) => Ok(value),
        None => err(Reason::OutOfMemory),
    }
}

/// Each variant with the next of its payloads.
pub(crate) fn deal(
    alloc: Global,
    variants: &[u8],
    mut payloads: Vec<VecDeque<Value>>,
) -> Result<VecDeque<(u8, Value)>, Error>
    ensures { IfOk result
        (λ choices. AreDealt variants.now (map (λ p. p.items) payloads.items) choices.items) }
{
    let k = variants.len();
    let mut choices = VecDeque::with_capacity(alloc, k)?;
    for i in 0..k {
        let variant = variants[i];
        let payload = next(&mut payloads, variant as usize)?;
        choices.push_back_reserved((variant, payload));
    }
    Ok(choices)
}
