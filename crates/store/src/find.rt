// The slot of a name.
ghost use Rattle.std.specs.Prelude.{◌≡◌, ℕ, ◌+◌, ◌<◌, Bool, true, false, cond, ◌&&◌, MatchOption};
ghost use Rattle.frames.specs.Types.{name_of};
ghost use Rattle.head.specs.Slots.{named};
ghost use Rattle.head.specs.Queue.{names_it, place_of};
ghost use Rattle.store.specs.Parts.{slot_of, stamp_at, slots_of};

use crate::same::is_message;
use crate::types::{Queue, Slot};
use frames::types::Name;

impl Slot {
    pub fn is_named(&self, name: Name) -> bool
        ensures { result ≡ names_it (name_of name) (named (slot_of self.now)) }
    {
        matches!(*self, Slot::Data { name: x, .. } if is_message(name, x))
    }
}

impl Queue {
    // The place of the first slot that names the message.
    pub fn find(&self, name: Name) -> Option<usize>
        ensures place { stamp_at self.now.base result ≡ place_of (slots_of self.now) (name_of name) 96 self.now.base }
        ensures bound { MatchOption result (⊥ → ⊥) (λ i. (i < 96) × (names_it (name_of name) (named (slots_of self.now (self.now.base + i))) ≡ true)) }
    {
        self.slots.iter().position(|slot| slot.is_named(name))
    }
}
