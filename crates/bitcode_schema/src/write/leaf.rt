//! Writing the column of values of one case.
ghost use Rattle.std.specs.Prelude.{◌≡◌, ℕ, Some, map, OnOk, IfErr};
ghost use Rattle.bitcode_schema.specs.Forms.{leaf_content};
ghost use Rattle.bitcode_schema.specs.Writing.{Writes, HasStranger, IsRefusal};

use crate::write::in_case::InCase;
use bitcode_coder::coder::{Buffer, Encoder};
use bitcode_memory::error::{Error, Reason};
use bitcode_memory::refuse::err;
use bitcode_untyped::value::Value;
use std::alloc::Global;

/// Appends the column of values of one case.
pub fn write_leaf<T: InCase, E: Buffer + Encoder<T> + Drop>(
    alloc: Global,
    values: &[&Value],
    out: &mut Vec<u8>,
) -> Result<(), Error>
    requires { (e : E) (n : ℕ) → E.surely_overflows e n → ⊥ }
    ensures written { OnOk result
        (Writes (leaf_content (Some T.leaf)) T.data.shape (map (λ v. v.now) values.now)
        out.old.items out.new.items) }
    ensures refused { IfErr result
        (λ e. IsRefusal e.reason
        (HasStranger (leaf_content (Some T.leaf)) T.data.shape (map (λ v. v.now) values.now))) }
{
    let mut column = E::new(alloc);
    column.reserve(values.len())?;
    for value in values {
        match T::held(value) {
            Some(t) => {
                t.told();
                column.encode(t)?;
            }
            None => return err(Reason::NotOfTheShape),
        }
    }
    column.collect_into(out)
}
