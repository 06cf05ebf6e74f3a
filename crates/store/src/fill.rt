// The body of a data slot.
ghost use Rattle.std.specs.Prelude.{◌≡◌, ℕ, ◌+◌, Bool, true, false, if◌then◌else◌, nat_eq};
ghost use Rattle.frames.specs.Types.{body_of};
ghost use Rattle.store.specs.Parts.{queue_of, with_body, slots_of};

use crate::types::{Queue, Slot};
use frames::types::Body;

impl Queue {
    // The body goes into the data slot at a place; nothing changes where there is none.
    pub fn fill(&mut self, i: usize, body: Body)
        ensures base { self.new.base ≡ self.old.base }
        ensures gone { self.new.gone ≡ self.old.gone }
        ensures slots { queue_of self.old.base self.new.slots ≡ (λ s. (if nat_eq s (self.old.base + i) then with_body (body_of body) (slots_of self.old s) else slots_of self.old s)) }
    {
        if i > 95 {
            return;
        }
        let slot = self.slots[i];
        if let Slot::Data { name, .. } = slot {
            self.slots[i] = Slot::Data {
                name,
                body: Some(body),
            };
        }
    }
}
