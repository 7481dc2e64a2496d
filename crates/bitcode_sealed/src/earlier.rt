//! Types that have changed, and containers of them: what a value is made from that was sealed as an earlier version.
ghost use Rattle.std.specs.Prelude.{◌≡◌, IfOk, IfErr};
ghost use Rattle.std.specs.List.{AllZip};
ghost use Rattle.std.specs.Ordering.{eq_by_cmp};
ghost use Rattle.bitcode_memory.specs.declared.error.Reason.{Reason};
ghost use Rattle.bitcode_sealed.specs.Upgrades.{UpgradesOption, UpgradesMap};

use bitcode_memory::error::{Error, Reason};
use std::alloc::Global;
use std::collections::{BTreeMap, HashMap};
use std::hash::Hash;

/// A type that had another form in the version `VERSION` of its label.
///
/// `scripts/new_type` writes the impl for a type with `#[since]` or `#[until]`. A container is made from an earlier one
/// element by element.
///
/// ```text
/// impl Earlier<1> for Job {
///     type Before = (u64, String);
///
///     ghost is_upgrade = { λ b t. (t.number ≡ b.0) × (t.name ≡ b.1) × (t.tries ≡ 5) };
///
///     fn upgrade(_alloc: Global, (number, name): (u64, String)) -> Result<Job, Error> {
///         Ok(Job { number, name, tries: 5 })
///     }
/// }
/// ```
pub trait Earlier<const VERSION: u16> {
    /// The type as it was: a struct as the tuple of the fields that it had.
    type Before;

    // the value has the fields of the earlier one, and the defaults
    ghost is_upgrade: { Self.Before → Self → Type 0 };

    /// Makes the value from the earlier one.
    ///
    /// The only error is `out of memory`.
    fn upgrade(alloc: Global, before: Self::Before) -> Result<Self, Error>
        ensures made { IfOk result (λ t. is_upgrade before t) }
        ensures refused { IfErr result (λ e. e.reason ≡ Reason.OutOfMemory) };
}

impl<const VERSION: u16, T: Earlier<VERSION> + Drop> Earlier<VERSION> for Box<T> {
    type Before = Box<T::Before>;

    ghost is_upgrade = { λ b t. T.is_upgrade b.value t.value };

    fn upgrade(alloc: Global, before: Box<T::Before>) -> Result<Box<T>, Error> {
        Ok(Box::new(alloc, T::upgrade(alloc, Box::into_inner(before))?)?)
    }
}

impl<const VERSION: u16, T: Earlier<VERSION>> Earlier<VERSION> for Option<T> {
    type Before = Option<T::Before>;

    ghost is_upgrade = { UpgradesOption T.is_upgrade };

    fn upgrade(alloc: Global, before: Option<T::Before>) -> Result<Option<T>, Error> {
        match before {
            Some(value) => Ok(Some(T::upgrade(alloc, value)?)),
            None => Ok(None),
        }
    }
}

impl<const VERSION: u16, T: Earlier<VERSION> + Drop> Earlier<VERSION> for Vec<T>
where
    T::Before: Drop,
{
    type Before = Vec<T::Before>;

    ghost is_upgrade = { λ b t. AllZip T.is_upgrade b.items t.items };

    fn upgrade(alloc: Global, before: Vec<T::Before>) -> Result<Vec<T>, Error> {
        let mut items = Vec::new(alloc);
        items.reserve(before.len())?;
        for each in before {
            items.push(T::upgrade(alloc, each)?)?;
        }
        Ok(items)
    }
}

impl<const VERSION: u16, K: Eq + Hash + Drop, T: Earlier<VERSION> + Drop> Earlier<VERSION>
    for HashMap<K, T>
where
    T::Before: Drop,
{
    type Before = HashMap<K, T::Before>;

    ghost is_upgrade = { λ b t. UpgradesMap K.eq T.is_upgrade b.entries t.entries };

    fn upgrade(alloc: Global, before: HashMap<K, T::Before>) -> Result<HashMap<K, T>, Error> {
        let mut map = HashMap::new(alloc);
        for (key, value) in before {
            let _old = map.insert(key, T::upgrade(alloc, value)?)?;
        }
        Ok(map)
    }
}

impl<const VERSION: u16, K: Ord + Drop, T: Earlier<VERSION> + Drop> Earlier<VERSION>
    for BTreeMap<K, T>
where
    T::Before: Drop,
{
    type Before = BTreeMap<K, T::Before>;

    ghost is_upgrade = { λ b t. UpgradesMap (eq_by_cmp K.cmp) T.is_upgrade b.entries t.entries };

    fn upgrade(alloc: Global, before: BTreeMap<K, T::Before>) -> Result<BTreeMap<K, T>, Error> {
        let mut map = BTreeMap::new(alloc);
        for (key, value) in before {
            let _old = map.insert(key, T::upgrade(alloc, value)?)?;
        }
        Ok(map)
    }
}
