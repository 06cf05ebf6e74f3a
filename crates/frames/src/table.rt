// Lists in fixed tables: a head has no heap, and copies what it keeps.
ghost use Rattle.std.specs.Prelude.{◌≡◌, ◌≤◌, length, ⊤};

use std::alloc::AllocError;

// Items: the first count of N places. The array stays, as the device has one; the library's ArrayVec would be no Copy.
pub struct Table<T, const N: usize> {
    pub places: [T; N],
    pub count: usize,
    ghost filled: { length places ≡ N },
    ghost within: { count ≤ N },
}

// No derive writes these for a struct that is generic and has ghost fields.
impl<T: Copy, const N: usize> Clone for Table<T, N> {
    ghost is_clone = { λ x y. y ≡ x };

    ghost is_infallible = { λ _. ⊤ };

    fn clone(&self) -> Result<Table<T, N>, AllocError> {
        Ok(*self)
    }
}

impl<T: Copy, const N: usize> Copy for Table<T, N> {}

impl<T: Copy, const N: usize> Table<T, N> {
    ghost use Rattle.std.specs.Prelude.{ℕ, ◌+◌, ◌-◌, ◌<◌, [], ◌∷◌, ◌++◌, take, drop, if◌then◌else◌, nat_lt, replicate, slice_get, slice_set};
    ghost use Rattle.std.specs.List.{remove};
    ghost use Rattle.frames.specs.Tables.{items, Filled};

    // No items; the filler stands in every place.
    pub fn empty(filler: T) -> Table<T, N>
        ensures items { items result ≡ [] }
        ensures rest { Filled filler result }
    {
        Table {
            places: [filler; N],
            count: 0,
        }
    }

    // The first N of these items, and the filler in the places after them.
    pub fn copied(filler: T, from: &[T]) -> Table<T, N>
        ensures items { items result ≡ take N from.now }
        ensures rest { Filled filler result }
    {
        let count = from.len().min(N);
        let mut places = [filler; N];
        places[..count].copy_from_slice(&from[..count]);
        Table { places, count }
    }

    pub fn as_slice(&self) -> &[T]
        ensures { result.now ≡ items self.now }
    {
        &self.places[..self.count]
    }

    // One item more at the end; false, and nothing changes, where every place is used. A bool, as a set's insert has: no value
    // stands beside it.
    pub fn push(&mut self, item: T) -> bool
        ensures answer { result ≡ nat_lt self.old.count N }
        ensures after { items self.new ≡ (if result then items self.old ++ item ∷ [] else items self.old) }
        ensures places { self.new.places ≡ (if result then slice_set self.old.places self.old.count item else self.old.places) }
        ensures count { self.new.count ≡ (if result then self.old.count + 1 else self.old.count) }
    {
        let room = self.count < N;
        if room {
            self.places[self.count] = item;
            self.count += 1;
        }
        room
    }

    // Takes an item away, where there is one at this place; those after it move up.
    #[tactic(auto, using(crate::proofs::Tables::front_less))]
    pub fn remove(&mut self, i: usize) -> Option<T>
        ensures answer { result ≡ slice_get (items self.old) i }
        ensures after { items self.new ≡ remove (items self.old) i }
    {
        if i >= self.count {
            return None;
        }
        let item = self.places[i];
        let all = &mut self.places[..];
        all[i..self.count].rotate_left(1);
        self.count -= 1;
        Some(item)
    }
}
