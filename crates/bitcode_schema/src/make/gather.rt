//! Values of several parts, from those of their parts.
#![tactic(auto, unfolding(bitcode_coder::specs::Length::lengths_left))]

ghost use Rattle.std.specs.Prelude.{◌≡◌, ◌*◌, ◌≤◌, ◌++◌, length, map, replicate, sum, Option, Some, List, IfOk};
ghost use Rattle.std.specs.List.{AllZip};
ghost use Rattle.bitcode_coder.specs.Cutting.{cut};
ghost use Rattle.bitcode_coder.specs.Length.{lengths_left};
ghost use Rattle.bitcode_schema.specs.Views.{Hold, elements_of, pairs_of};
ghost use Rattle.bitcode_untyped.specs.declared.value.Value.{Value};

use bitcode_coder::length::LengthDecoder;
use bitcode_memory::error::Error;
use bitcode_untyped::value::Value;
use std::alloc::Global;
use std::collections::VecDeque;

/// How several items become one value.
pub(crate) trait Whole<T> {
    // the items of such a value
    ghost view: { Value → Option (List T) };

    /// The value of the items.
    fn whole(items: Vec<T>) -> Value
        ensures { view result ≡ Some items.items };
}

/// Elements become a sequence.
pub(crate) struct AsSeq;

/// Keys and values become a map.
pub(crate) struct AsMap;

impl Whole<Value> for AsSeq {
    ghost view = { elements_of };

    fn whole(items: Vec<Value>) -> Value
        ensures { elements_of result ≡ Some items.items }
    {
        Value::Seq(items)
    }
}

impl Whole<(Value, Value)> for AsMap {
    ghost view = { pairs_of };

    fn whole(items: Vec<(Value, Value)>) -> Value
        ensures { pairs_of result ≡ Some items.items }
    {
        Value::Map(items)
    }
}

// Takes so many items off the front.
fn take<T: Drop>(alloc: Global, items: &mut VecDeque<T>, count: usize) -> Result<Vec<T>, Error>
    requires { count ≤ length items.old.items }
    ensures taken { IfOk result (λ front. items.old.items ≡ front.items ++ items.new.items) }
    ensures size { IfOk result (λ front. length front.items ≡ count) }
{
    let mut front = Vec::with_capacity(alloc, count)?;
    for _taken in 0..count {
        front.push_reserved(items.pop_front().unwrap());
    }
    Ok(front)
}

/// Values of so many items each.
pub(crate) fn lists<T: Drop, W: Whole<T>>(
    alloc: Global,
    lengths: &mut LengthDecoder<'_>,
    k: usize,
    mut items: VecDeque<T>,
) -> Result<VecDeque<Value>, Error>
    requires lengths { length (lengths_left lengths.old) ≡ k }
    requires items { sum (lengths_left lengths.old) ≡ length items.items }
    ensures made { IfOk result
        (λ values. Hold W.view values.items (cut (lengths_left lengths.old) items.items)) }
{
    let mut values = VecDeque::with_capacity(alloc, k)?;
    for _made in 0..k {
        let list = take(alloc, &mut items, lengths.decode())?;
        values.push_back_reserved(W::whole(list));
    }
    Ok(values)
}

/// Arrays of one size.
pub(crate) fn arrays(
    alloc: Global,
    size: usize,
    k: usize,
    mut elements: VecDeque<Value>,
) -> Result<VecDeque<Value>, Error>
    requires { k * size ≡ length elements.items }
    ensures made { IfOk result
        (λ values. Hold elements_of values.items (cut (replicate k size) elements.items)) }
{
    let mut values = VecDeque::with_capacity(alloc, k)?;
    for _made in 0..k {
        let array = take(alloc, &mut elements, size)?;
        values.push_back_reserved(AsSeq::whole(array));
    }
    Ok(values)
}

/// Pairs of what stands in the same place.
pub(crate) fn zipped<A: Drop, B: Drop>(
    alloc: Global,
    mut first: VecDeque<A>,
    mut second: VecDeque<B>,
) -> Result<VecDeque<(A, B)>, Error>
    requires { length first.items ≡ length second.items }
    ensures firsts { IfOk result (λ pairs. map (λ p. p.0) pairs.items ≡ first.items) }
    ensures seconds { IfOk result (λ pairs. map (λ p. p.1) pairs.items ≡ second.items) }
{
    let k = first.len();
    let mut pairs = VecDeque::with_capacity(alloc, k)?;
    for _made in 0..k {
        pairs.push_back_reserved((first.pop_front().unwrap(), second.pop_front().unwrap()));
    }
    Ok(pairs)
}

/// How one item becomes another.
pub(crate) trait Turns<A, B> {
    // the other, and the one
    ghost turned: { B → A → Type 0 };

    /// The other item.
    fn turn(alloc: Global, item: A) -> Result<B, Error>
        ensures { IfOk result (λ other. turned other item) };
}

/// Each of the items as another.
pub(crate) fn each<A: Drop, B: Drop, T: Turns<A, B>>(
    alloc: Global,
    mut items: VecDeque<A>,
) -> Result<VecDeque<B>, Error>
    ensures { IfOk result (λ others. AllZip T.turned others.items items.items) }
{
    let k = items.len();
    let mut others = VecDeque::with_capacity(alloc, k)?;
    for _made in 0..k {
        others.push_back_reserved(T::turn(alloc, items.pop_front().unwrap())?);
    }
    Ok(others)
}
