// The slots of an ACK.
ghost use Rattle.std.specs.Prelude.{◌≡◌, ℕ, suc, ◌+◌, ◌-◌, ◌<◌, ◌≤◌, Bool, true, false, ◌&&◌, length, if◌then◌else◌};
ghost use Rattle.frames.specs.Types.{ack_meant};
ghost use Rattle.head.specs.Slots.{over, cells};
ghost use Rattle.head.specs.Head.{fill_in};
ghost use Rattle.store.specs.Parts.{queue_of, slots_of, inbox_of, spans};

use crate::types::{Inbox, Queue, Slot};
use frames::types::Ack;

impl Queue {
    // A stamp and the k after it stand in the queue.
    pub fn has_places(&self, stamp: u32, k: usize) -> bool
        ensures { result ≡ spans self.now stamp k }
    {
        self.base <= stamp && k <= 95 && stamp as u64 + k as u64 <= self.base as u64 + 95
    }

    fn set_from(&mut self, at: usize, ack: Ack, inbox: &Inbox)
        requires fits { at + ack.names.count < 96 }
        requires placed { ack.stamp ≡ self.old.base + at }
        ensures base { self.new.base ≡ self.old.base }
        ensures gone { self.new.gone ≡ self.old.gone }
        ensures slots { queue_of self.old.base self.new.slots ≡ (λ s. over (fill_in (inbox_of inbox.now) (cells (ack_meant ack) s)) (slots_of self.old s)) }
    {
        let Ack { issuer, names, .. } = ack;
        self.slots[at] = Slot::Ack { issuer, names };
        // By place. Tried as an iter_mut zipped with the names: that the slots keep their length did not close.
        for (i, name) in names.as_slice().iter().enumerate() {
            self.slots[at + 1 + i] = inbox.slot_for(*name);
        }
    }

    // Sets the slots of an ACK, with the bodies that are pending; false, and nothing changes, where they do not stand in the queue. A bool: no
    // value stands beside it.
    pub fn lay(&mut self, ack: Ack, inbox: &Inbox) -> bool
        ensures answer { result ≡ spans self.old ack.stamp ack.names.count }
        ensures base { self.new.base ≡ self.old.base }
        ensures gone { self.new.gone ≡ self.old.gone }
        ensures slots { queue_of self.old.base self.new.slots ≡ (if result then (λ s. over (fill_in (inbox_of inbox.now) (cells (ack_meant ack) s)) (slots_of self.old s)) else slots_of self.old) }
    {
        let placed = self.has_places(ack.stamp, ack.names.count);
        if placed {
            self.set_from((ack.stamp - self.base) as usize, ack, inbox);
        }
        placed
    }
}
