// What deliver asks of the queue: where the ACKs end, which ACK ordered a slot, and how many heads are known to have it.
ghost use Rattle.std.specs.Prelude.{◌≡◌, ℕ, suc, ◌+◌, ◌-◌, ◌<◌, ◌≤◌, min, List, MatchOption};
ghost use Rattle.head.specs.Deliver.{holders as m_holders, others as m_others, stamp_of};
ghost use Rattle.head.specs.Head.{Head};
ghost use Rattle.head.specs.Queue.{first_not, issuers, last_ack as m_last_ack};
ghost use Rattle.head.specs.Slots.{is_ack as m_is_ack};
ghost use Rattle.store.specs.Holders.{Keeps, Tells};
ghost use Rattle.store.specs.Parts.{Passed, Ends, slots_of};

use crate::types::{InRing, Queue, Slot};

impl Queue {
    // The first stamp from due on at which no ACK stands.
    pub fn skip_acks(&self, due: u32) -> u32
        ensures value { result ≡ first_not m_is_ack (slots_of self.now) (self.now.base + 96 - due) due }
        ensures from { due ≤ result }
        ensures passed { Passed self.now due → Passed self.now result }
        ensures bound { Ends self.now → due ≤ 1000001 → result ≤ 1000001 }
    {
        let end = self.base + 96;
        (due..end)
            .find(|stamp| !self.at(*stamp as u64).is_ack())
            .unwrap_or(due.max(end))
    }

    // The stamp of the ACK that ordered the slot at a stamp: the last at or before it.
    pub fn orderer(&self, stamp: u32) -> Option<u32>
        ensures value { result ≡ stamp_of (m_last_ack (slots_of self.now) (suc stamp - self.now.base) self.now.base) }
        ensures bound { MatchOption result (⊥ → ⊥) (λ t. (self.now.base ≤ t) × (t ≤ stamp) × (t < self.now.base + 96)) }
    {
        let count = (stamp as u64 + 1).saturating_sub(self.base as u64).min(96);
        self.last_ack(count as usize).map(|ack| ack.stamp)
    }

    // Which heads issued a known ACK from a stamp on: a flag for each, as the definition tells them.
    fn issuers_from(&self, stamp: u32) -> [bool; 8]
        requires { (self.now.base ≤ stamp) × (stamp ≤ self.now.base + 96) }
        ensures { Tells result (issuers (slots_of self.now) (self.now.base + 96 - stamp) stamp) }
    {
        let mut issued = [false; 8];
        for slot in &self.slots[(stamp - self.base) as usize..] {
            if let Slot::Ack { issuer, .. } = *slot {
                if issuer < 8 {
                    issued[issuer as usize] = true;
                }
            }
        }
        issued
    }

    // How many other heads are known to have the slot at a stamp: those that issued an ACK from the one that ordered it on.
    pub fn holders(&self, ring: InRing, stamp: u32) -> u8
        ensures value { (h : Head) → Keeps h ring.me self.now → result ≡ m_holders ring.size.heads h stamp }
        ensures bound { result ≤ ring.size.heads }
        ensures fewer { ring.me < ring.size.heads → result < ring.size.heads }
    {
        match self.orderer(stamp) {
            None => 0,
            Some(stamp) => ring.others(self.issuers_from(stamp)),
        }
    }
}

impl InRing {
    // How many heads other than this one are in the table.
    fn others(self, issued: [bool; 8]) -> u8
        ensures value { (is : List ℕ) → Tells issued is → result ≡ m_others self.size.heads self.me is }
        ensures bound { result ≤ self.size.heads }
        ensures fewer { self.me < self.size.heads → result < self.size.heads }
    {
        (0..self.size.heads)
            .filter(|head| *head != self.me && issued[*head as usize])
            .count() as u8
    }
}
