// The marks of a slot's holders: at which places of the queue the first ACK of each stands.
ghost use Rattle.std.specs.Prelude.{◌≡◌, ℕ, ◌+◌, ◌≤◌, false, ◌&&◌, ◌||◌, ◌++◌, length, drop, if◌then◌else◌, nat_le, slice_index_or};
ghost use Rattle.head.specs.Deliver.{orderer as m_orderer};
ghost use Rattle.head.specs.Head.{Head};
ghost use Rattle.head.specs.Questions.{counts, holder_marks, marks_from};
ghost use Rattle.store.specs.Holders.{Keeps, issued_by, new_mark as m_new_mark};
ghost use Rattle.store.specs.Parts.{slot_of};

use crate::types::{InRing, Queue, Slot};

impl Slot {
    // 1 plus the issuer of an ACK, if it is counted and not in the table yet, into which it goes; otherwise 0,
    // the byte's own word for none.
    fn new_mark(&self, ring: InRing, marked: &mut [bool; 8]) -> u8
        ensures mark { result ≡ m_new_mark ring.size.heads ring.me marked.old (slot_of self.now) }
        ensures table { (g : ℕ) → slice_index_or marked.new g false ≡ (slice_index_or marked.old g false || (counts ring.size.heads ring.me g && issued_by g (slot_of self.now))) }
    {
        let Slot::Ack { issuer, .. } = *self else {
            return 0;
        };
        if issuer >= ring.size.heads || issuer == ring.me || marked[issuer as usize] {
            return 0;
        }
        marked[issuer as usize] = true;
        issuer + 1
    }
}

impl Queue {
    // Marks the first 96 bytes: for a place from this one on, the issuer whose first ACK stands there.
    fn mark_from(&self, ring: InRing, from: usize, scratch: &mut [u8])
        requires { 96 ≤ length scratch.old }
        ensures { (h : Head) → Keeps h ring.me self.now → scratch.new ≡ holder_marks ring.size.heads h (self.now.base + from) 96 self.now.base ++ drop 96 scratch.old }
    {
        let mut marked = [false; 8];
        // By place. Tried as an iter_mut zipped with the slots: what the bytes end as did not close.
        for (i, slot) in self.slots.iter().enumerate() {
            let mark = if i < from {
                0
            } else {
                slot.new_mark(ring, &mut marked)
            };
            scratch[i] = mark;
        }
    }

    // Marks, for the slot at a stamp, the first ACK of each head that holders counts; false, and nothing changes, where there are fewer than 96 bytes. A
    // bool: no value stands beside it.
    pub fn mark_holders(&self, ring: InRing, stamp: u32, scratch: &mut [u8]) -> bool
        ensures answer { result ≡ nat_le 96 (length scratch.old) }
        ensures after { (h : Head) → Keeps h ring.me self.now → scratch.new ≡ (if result then marks_from ring.size.heads h (m_orderer h stamp) ++ drop 96 scratch.old else scratch.old) }
    {
        if scratch.len() < 96 {
            return false;
        }
        let from = match self.orderer(stamp) {
            None => 96,
            Some(t) => (t - self.base) as usize,
        };
        self.mark_from(ring, from, scratch);
        true
    }
}
