//! The parts of what several values hold, in order.
ghost use Rattle.std.specs.Prelude.{◌≡◌, ◌++◌, ◌<◌, ◌≤◌, ℕ, All, Some, length, map, slice_get, IfOk, OnOk, IfErr};
ghost use Rattle.std.specs.Prelude.{MatchBool};
ghost use Rattle.bitcode_shapes.specs.Shape.{IsWithin};
ghost use Rattle.std.specs.List.{flat_map};
ghost use Rattle.bitcode_memory.specs.declared.error.Reason.TheVariants.{OutOfMemory};
ghost use Rattle.bitcode_schema.specs.Choosing.{of_variant, option_variant};
ghost use Rattle.bitcode_schema.specs.Views.{Hold, HasOther, boxed, key_in, value_in, variant_in, payload_in};
ghost use Rattle.bitcode_schema.specs.Writing.{IsRefusal};

use bitcode_memory::error::{Error, Reason};
use bitcode_memory::refuse::err;
use bitcode_untyped::value::Value;
use std::alloc::Global;

// Adds references to each of several values.
fn push_each<'a>(items: &'a [Value], parts: &mut Vec<&'a Value>) -> Result<(), Error>
    ensures added { OnOk result
        (map (λ v. v.now) parts.new.items ≡ map (λ v. v.now) parts.old.items ++ items.now) }
    ensures refused { IfErr result (λ e. e.reason ≡ OutOfMemory) }
{
    for item in items {
        parts.push(item)?;
    }
    Ok(())
}

/// The elements of all lists.
pub fn flatten<'a>(alloc: Global, lists: &[&'a [Value]]) -> Result<Vec<&'a Value>, Error>
    ensures joined { IfOk result
        (λ parts. map (λ v. v.now) parts.items ≡ flat_map (λ l. l) (map (λ l. l.now) lists.now)) }
    ensures refused { IfErr result (λ e. e.reason ≡ OutOfMemory) }
{
    let mut parts = Vec::new(alloc);
    for list in lists {
        push_each(list, &mut parts)?;
    }
    Ok(parts)
}

// Adds references to the keys and the values of a map.
fn push_pairs<'a>(
    pairs: &'a [(Value, Value)],
    keys: &mut Vec<&'a Value>,
    parts: &mut Vec<&'a Value>,
) -> Result<(), Error>
    ensures keys { OnOk result
        (map (λ v. v.now) keys.new.items ≡ map (λ v. v.now) keys.old.items ++ map key_in
        pairs.now) }
    ensures values { OnOk result
        (map (λ v. v.now) parts.new.items ≡ map (λ v. v.now) parts.old.items ++ map value_in
        pairs.now) }
    ensures refused { IfErr result (λ e. e.reason ≡ OutOfMemory) }
{
    for pair in pairs {
        keys.push(&pair.0)?;
        parts.push(&pair.1)?;
    }
    Ok(())
}

/// The keys of all maps, and their values.
pub fn split<'a>(
    alloc: Global,
    maps: &[&'a [(Value, Value)]],
) -> Result<(Vec<&'a Value>, Vec<&'a Value>), Error>
    ensures keys { IfOk result
        (λ parts. map (λ v. v.now) parts.0.items ≡ map key_in
        (flat_map (λ l. l) (map (λ l. l.now) maps.now))) }
    ensures values { IfOk result
        (λ parts. map (λ v. v.now) parts.1.items ≡ map value_in
        (flat_map (λ l. l) (map (λ l. l.now) maps.now))) }
    ensures refused { IfErr result (λ e. e.reason ≡ OutOfMemory) }
{
    let mut keys = Vec::new(alloc);
    let mut parts = Vec::new(alloc);
    for map in maps {
        push_pairs(map, &mut keys, &mut parts)?;
    }
    Ok((keys, parts))
}

/// What those options hold that hold a value.
pub fn somes<'a>(alloc: Global, options: &[&'a Option<Box<Value>>]) -> Result<Vec<&'a Value>, Error>
    ensures held { IfOk result
        (λ parts. of_variant option_variant 1 (map (λ h. boxed h.now) options.now)
        ≡ map (λ v. Some v.now) parts.items) }
    ensures refused { IfErr result (λ e. e.reason ≡ OutOfMemory) }
{
    let mut parts = Vec::new(alloc);
    for option in options {
        if let Some(held) = option {
            parts.push(&**held)?;
        }
    }
    Ok(parts)
}

/// The payloads of those enums that have one variant.
pub fn payloads<'a>(
    alloc: Global,
    variant: usize,
    enums: &[(u32, &'a Value)],
) -> Result<Vec<&'a Value>, Error>
    ensures held { IfOk result
        (λ parts. map (λ v. v.now) parts.items ≡ map payload_in
        (of_variant variant_in variant (map (λ h. (h.0, h.1.now)) enums.now))) }
    ensures refused { IfErr result (λ e. e.reason ≡ OutOfMemory) }
{
    let mut parts = Vec::new(alloc);
    for entry in enums {
        if entry.0 as usize == variant {
            parts.push(entry.1)?;
        }
    }
    Ok(parts)
}

/// The variants of options: 0 for none.
pub fn option_variants(alloc: Global, options: &[&Option<Box<Value>>]) -> Result<Vec<u8>, Error>
    ensures variants { IfOk result
        (λ variants. variants.items ≡ map option_variant (map (λ h. boxed h.now) options.now)) }
    ensures refused { IfErr result (λ e. e.reason ≡ OutOfMemory) }
{
    let mut variants = Vec::new(alloc);
    for option in options {
        match option {
            None => variants.push(0)?,
            Some(_) => variants.push(1)?,
        }
    }
    Ok(variants)
}

/// The variants of enums, if each is below the count.
pub fn enum_variants(alloc: Global, count: usize, enums: &[(u32, &Value)]) -> Result<Vec<u8>, Error>
    requires { count ≤ 256 }
    ensures variants { IfOk result
        (λ variants. variants.items ≡ map variant_in (map (λ h. (h.0, h.1.now)) enums.now)) }
    ensures below { OnOk result
        (All (λ e. variant_in e < count) (map (λ h. (h.0, h.1.now)) enums.now)) }
    ensures refused { IfErr result
        (λ e. IsRefusal e.reason
        (All (λ e. variant_in e < count) (map (λ h. (h.0, h.1.now)) enums.now) → ⊥)) }
{
    let mut variants = Vec::new(alloc);
    for entry in enums {
        let variant = entry.0 as usize;
        if variant >= count {
            return err(Reason::NotOfTheShape);
        }
        variants.push(variant as u8)?;
    }
    Ok(variants)
}

/// Whether each list has at most so many elements, if there is a limit.
pub fn are_within<T>(limit: Option<usize>, lists: &[&[T]]) -> bool
    ensures { MatchBool result
        (All (λ l. IsWithin limit (length l)) (map (λ l. l.now) lists.now))
        (All (λ l. IsWithin limit (length l)) (map (λ l. l.now) lists.now) → ⊥) }
{
    let Some(limit) = limit else {
        return true;
    };
    for list in lists {
        if list.len() > limit {
            return false;
        }
    }
    true
}

/// Whether each list has so many elements.
pub fn are_of_size<T>(size: usize, lists: &[&[T]]) -> bool
    ensures { MatchBool result
        (All (λ l. length l ≡ size) (map (λ l. l.now) lists.now))
        (All (λ l. length l ≡ size) (map (λ l. l.now) lists.now) → ⊥) }
{
    for list in lists {
        if list.len() != size {
            return false;
        }
    }
    true
}

/// One field of each row.
pub fn fields<'a>(alloc: Global, rows: &[&'a [Value]], i: usize) -> Result<Vec<&'a Value>, Error>
    ensures held { IfOk result
        (λ parts. Hold (λ row. slice_get row i) (map (λ r. r.now) rows.now)
        (map (λ v. v.now) parts.items)) }
    ensures refused { IfErr result
        (λ e. IsRefusal e.reason
        (HasOther (λ row. slice_get row i) (map (λ r. r.now) rows.now))) }
{
    let mut parts = Vec::new(alloc);
    for row in rows {
        match row.get(i) {
            Some(field) => parts.push(field)?,
            None => return err(Reason::NotOfTheShape),
        }
    }
    Ok(parts)
}
