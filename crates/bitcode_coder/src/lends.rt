//! Iterators that lend the elements of lists and sets, and the keys and values of maps.
ghost use Rattle.std.specs.Prelude.{◌≡◌, List, [], ◌∷◌, IfSome, IfNone};
ghost use Rattle.std.specs.Map.Iter.{TakesFirst, deref_pair};
ghost use Rattle.std.specs.Slice.Iter.{iter_rest};
ghost use Rattle.std.specs.VecDeque.Iter.{deque_iter_rest};

use std::collections::{btree_map, btree_set, hash_map, hash_set, linked_list, vec_deque};
use std::slice;

/// An iterator that lends elements. Its contract knows the list of the remaining ones.
///
/// ```rust
/// let queue = vec![in alloc; 7u8, 8]?;
/// let mut lent = queue.iter();
/// let first: Option<&u8> = lent.lend();
/// assert_eq!(rt; first, Some(&7));
/// ```
pub trait Lends<'b, T>: Drop {
    ghost rest: { Self → List T };

    /// The next element.
    fn lend(&mut self) -> Option<&'b T>
        ensures next { IfSome result (λ item. rest self.old ≡ item.now ∷ rest self.new) }
        ensures end { IfNone result (rest self.old ≡ []) }
        ensures ended { IfNone result (rest self.new ≡ []) };
}

impl<'b, T> Lends<'b, T> for slice::Iter<'b, T> {
    ghost rest = { λ l. iter_rest l };

    fn lend(&mut self) -> Option<&'b T> {
        self.next()
    }
}

impl<'b, T> Lends<'b, T> for vec_deque::Iter<'b, T> {
    ghost rest = { λ l. deque_iter_rest l };

    fn lend(&mut self) -> Option<&'b T> {
        self.next()
    }
}

impl<'b, T> Lends<'b, T> for linked_list::Iter<'b, T> {
    ghost rest = { λ l. l };

    fn lend(&mut self) -> Option<&'b T> {
        self.next()
    }
}

impl<'b, T> Lends<'b, T> for btree_set::Iter<'b, T> {
    ghost rest = { λ l. l };

    fn lend(&mut self) -> Option<&'b T> {
        self.next()
    }
}

impl<'b, T> Lends<'b, T> for hash_set::Iter<'b, T> {
    ghost rest = { λ l. l };

    fn lend(&mut self) -> Option<&'b T> {
        self.next()
    }
}

impl<'b, K, V> Lends<'b, K> for btree_map::Keys<'b, K, V> {
    ghost rest = { λ l. l };

    fn lend(&mut self) -> Option<&'b K> {
        self.next()
    }
}

impl<'b, K, V> Lends<'b, V> for btree_map::Values<'b, K, V> {
    ghost rest = { λ l. l };

    fn lend(&mut self) -> Option<&'b V> {
        self.next()
    }
}

impl<'b, K, V> Lends<'b, K> for hash_map::Keys<'b, K, V> {
    ghost rest = { λ l. l };

    fn lend(&mut self) -> Option<&'b K> {
        self.next()
    }
}

impl<'b, K, V> Lends<'b, V> for hash_map::Values<'b, K, V> {
    ghost rest = { λ l. l };

    fn lend(&mut self) -> Option<&'b V> {
        self.next()
    }
}

/// An iterator that lends pairs of keys and values. Its contract knows the list of the remaining ones.
pub trait LendsPairs<'b, K, V>: Drop {
    ghost rest: { Self → List (K × V) };

    /// The next pair.
    fn lend_pair(&mut self) -> Option<(&'b K, &'b V)>
        ensures next { TakesFirst deref_pair (rest self.old) result (rest self.new) };
}

impl<'b, K, V> LendsPairs<'b, K, V> for btree_map::Iter<'b, K, V> {
    ghost rest = { λ l. l };

    fn lend_pair(&mut self) -> Option<(&'b K, &'b V)> {
        self.next()
    }
}

impl<'b, K, V> LendsPairs<'b, K, V> for hash_map::Iter<'b, K, V> {
    ghost rest = { λ l. l };

    fn lend_pair(&mut self) -> Option<(&'b K, &'b V)> {
        self.next()
    }
}
