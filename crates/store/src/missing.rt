// The stamps that a head lacks.
ghost use Rattle.std.specs.Prelude.{◌≡◌, ◌+◌, ◌≤◌, ◌++◌, length, drop, if◌then◌else◌, Some, None, MatchOption, nat_le};
ghost use Rattle.store.specs.Missing.{end_of, lacking};

use crate::types::Queue;

impl Queue {
    // How many places are below end.
    fn places_known(&self) -> usize
        ensures value { self.now.base + result ≡ end_of self.now }
        ensures bound { result ≤ 96 }
    {
        (self.end() - self.base) as usize
    }

    fn list_missing(&self, list: &mut [u32]) -> usize
        requires { 96 ≤ length list.old }
        ensures count { result ≡ length (lacking self.now) }
        ensures bound { result ≤ 96 }
        ensures after { list.new ≡ lacking self.now ++ drop result list.old }
    {
        // Counted by hand: the count is the answer too, and a chain beside an iter_mut would count again.
        let mut count = 0;
        for (i, slot) in self.slots[..self.places_known()].iter().enumerate() {
            if !slot.is_full() {
                list[count] = self.base + i as u32;
                count += 1;
            }
        }
        count
    }

    // Lists the stamps below end that are not full, ascending, and answers how many; None, and nothing changes, where the list has fewer than 96 places.
    pub fn missing(&self, list: &mut [u32]) -> Option<usize>
        ensures answer { result ≡ (if nat_le 96 (length list.old) then Some (length (lacking self.now)) else None) }
        ensures bound { MatchOption result (⊥ → ⊥) (λ count. count ≤ 96) }
        ensures after { list.new ≡ (if nat_le 96 (length list.old) then lacking self.now ++ drop (length (lacking self.now)) list.old else list.old) }
    {
        if list.len() < 96 {
            return None;
        }
        Some(self.list_missing(list))
    }
}
