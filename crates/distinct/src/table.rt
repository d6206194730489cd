ghost use Rattle.std.specs.Prelude.{vec_items, ◌≡◌, ℕ, ◌<◌, ◌≤◌, cond, List, [], ◌∷◌, ◌++◌, map, length, take, IfOk, vec_len, vec_capacity};
ghost use Rattle.std.specs.Slice.{IsGetResult};
ghost use Rattle.distinct.specs.Numbering.{Apart, Found, place, added, entered};

use crate::kind::Alike;
use std::alloc::{AllocError, Global};

// The place of the first item that is like `x`.
fn position<T: Alike>(items: &[T], x: &T) -> Option<usize>
    ensures value { result ≡ place (map T.shown items.now) (T.shown x.now) }
    ensures cases { Found (map T.shown items.now) (T.shown x.now) result }
{
    items.iter().position(|y| y.alike(x))
}

// Entries in the order in which they came, no two alike, at most `limit` of them; their number is their place.
// All memory is taken when the table is made.
#[derive(Drop)]
pub struct Distinct<T: Alike> {
    items: Vec<T>,
    limit: usize,
    ghost room: { limit ≤ vec_capacity items },
    ghost few: { vec_len items ≤ limit },
    ghost apart: { Apart (map T.Alike.shown (vec_items items)) },
}

impl<T: Alike> Distinct<T> {
    // An empty table for at most `limit` entries.
    pub fn new(heap: Global, limit: usize) -> Result<Distinct<T>, AllocError>
        ensures { IfOk result (λ d. (d.items.items ≡ []) × (d.limit ≡ limit)) }
    {
        Ok(Distinct {
            items: Vec::with_capacity(heap, limit)?,
            limit,
        })
    }

    pub fn len(&self) -> usize
        ensures { result ≡ length self.now.items.items }
    {
        self.items.len()
    }

    pub fn as_slice(&self) -> &[T]
        ensures { result.now ≡ self.now.items.items }
    {
        self.items.as_slice()
    }

    // The number of the one entry that is like `x`, if there is one.
    pub fn find(&self, x: &T) -> Option<usize>
        ensures value { result ≡ place (map T.shown self.now.items.items) (T.shown x.now) }
        ensures cases { Found (map T.shown self.now.items.items) (T.shown x.now) result }
    {
        position(self.as_slice(), x)
    }

    // The number of the entry like `x`, which is added behind the others where there is none and a place is free.
    // None where `x` is like no entry and the table is full.
    pub fn add(&mut self, x: T) -> Option<usize>
    where
        T: Drop,
        ensures value { result ≡ added (map T.shown self.old.items.items) self.old.limit (T.shown x) }
        ensures items { self.new.items.items ≡ entered T.shown self.old.items.items self.old.limit x }
        ensures limit { self.new.limit ≡ self.old.limit }
    {
        if let Some(i) = self.find(&x) {
            return Some(i);
        }
        let n = self.len();
        if n >= self.limit {
            return None;
        }
        self.items.push_reserved(x);
        Some(n)
    }

    // Takes back all but the first `n` entries.
    pub fn truncate(&mut self, n: usize)
    where
        T: Drop,
        ensures items { self.new.items.items ≡ take n self.old.items.items }
        ensures limit { self.new.limit ≡ self.old.limit }
    {
        self.items.truncate(n);
    }
}

// A copy has the same entries under the same numbers, and memory of its own for as many.
impl<T: Alike + Copy> Clone for Distinct<T> {
    ghost is_clone = { λ old new. (new.items.items ≡ old.items.items) × (new.limit ≡ old.limit) };

    fn clone(&self) -> Result<Distinct<T>, AllocError> {
        let mut items = Vec::with_capacity(*self.items.allocator(), self.limit)?;
        items.extend_from_slice(self.as_slice())?;
        Ok(Distinct {
            items,
            limit: self.limit,
        })
    }
}
