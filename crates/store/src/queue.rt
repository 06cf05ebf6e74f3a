// What is read off the queue.
ghost use Rattle.std.specs.Prelude.{◌≡◌, ℕ, ◌+◌, ◌-◌, ◌<◌, ◌≤◌, Bool, true, false};
ghost use Rattle.head.specs.Slots.{known, full, is_ack as m_is_ack};
ghost use Rattle.head.specs.Queue.{first_not, past_last, all_unknown};
ghost use Rattle.store.specs.Parts.{slot_of, slots_of};

use crate::types::{Queue, Slot};

impl Slot {
    pub fn is_known(&self) -> bool
        ensures { result ≡ known (slot_of self.now) }
    {
        !matches!(self, Slot::Unknown)
    }

    pub fn is_full(&self) -> bool
        ensures { result ≡ full (slot_of self.now) }
    {
        match self {
            Slot::Unknown => false,
            Slot::Ack { .. } => true,
            Slot::Data { body, .. } => body.is_some(),
        }
    }

    pub fn is_ack(&self) -> bool
        ensures { result ≡ m_is_ack (slot_of self.now) }
    {
        matches!(self, Slot::Ack { .. })
    }
}

impl Queue {
    // What stands at a stamp: unknown outside the queue.
    pub fn at(&self, stamp: u64) -> Slot
        ensures { slot_of result ≡ slots_of self.now stamp }
    {
        let base = self.base as u64;
        if stamp < base || stamp - base > 95 {
            return Slot::Unknown;
        }
        self.slots[(stamp - base) as usize]
    }

    // The lowest stamp that is not full.
    pub fn mark(&self) -> u32
        ensures { result ≡ first_not full (slots_of self.now) 96 self.now.base }
    {
        let places = self.slots.iter().take_while(|slot| slot.is_full()).count();
        self.base + places as u32
    }

    // One past the highest stamp that is known.
    pub fn end(&self) -> u32
        ensures { result ≡ past_last known (slots_of self.now) 96 self.now.base }
    {
        match self.slots.iter().rposition(|slot| slot.is_known()) {
            Some(i) => self.base + i as u32 + 1,
            None => self.base,
        }
    }

    // The k stamps from this one on are unknown.
    pub fn is_free(&self, stamp: u32, k: usize) -> bool
        ensures { result ≡ all_unknown (slots_of self.now) k stamp }
    {
        let from = stamp as u64;
        (from..from.saturating_add(k as u64)).all(|stamp| !self.at(stamp).is_known())
    }
}
