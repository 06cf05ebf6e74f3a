// The numbers of the known front, and giving up what was delivered.
ghost use Rattle.std.specs.Prelude.{◌≡◌, ℕ, suc, ◌+◌, ◌-◌, ◌<◌, ◌≤◌, Bool, true, false, leb, List, ◌++◌, length, drop, replicate, if◌then◌else◌, Some, MatchOption, nat_le};
ghost use Rattle.frames.specs.Types.{name_of};
ghost use Rattle.head.specs.Slots.{unknown, known, named};
ghost use Rattle.head.specs.Queue.{acks as m_acks, highest, raise as m_raise};
ghost use Rattle.head.specs.Head.{Head};
ghost use Rattle.head.specs.Upkeep.{ready, give_up as m_give_up};
ghost use Rattle.store.specs.declared.types.Slot.TheVariants.{Unknown};
ghost use Rattle.store.specs.Parts.{slot_of, queue_of, table_of, low_of, part, Passed, Ends, Own, slots_of};

use crate::shift::shifted;
use crate::types::{Queue, Slot};
use frames::types::Name;

fn raise(low: &mut [u32; 8], name: Name)
    ensures { (s : ℕ) → table_of low.new s ≡ m_raise s (Some (name_of name)) (table_of low.old s) }
{
    let source = name.source as usize;
    low[source] = low[source].max(name.number);
}

// Raises the numbers over the known front of these slots.
fn climb(low: &mut [u32; 8], slots: &[Slot])
    ensures { (b s : ℕ) → table_of low.new s ≡ highest (queue_of b slots.now) s (length slots.now) b (table_of low.old s) }
{
    for slot in slots {
        match *slot {
            Slot::Unknown => return,
            Slot::Ack { .. } => {}
            Slot::Data { name, .. } => raise(low, name),
        }
    }
}

impl Queue {
    // Of each source, the highest number of the known front and of what was given up.
    pub fn lows(&self) -> [u32; 8]
        ensures { (s : ℕ) → table_of result s ≡ low_of self.now s }
    {
        let mut low = self.gone;
        climb(&mut low, &self.slots);
        low
    }

    pub fn acks(&self) -> usize
        ensures { result ≡ m_acks (slots_of self.now) 96 self.now.base }
    {
        // A loop and no chain: it is made after every call, and filter and count, or map and sum, take half as many instructions more.
        let mut n = 0;
        for s in &self.slots {
            if s.is_ack() {
                n += 1;
            }
        }
        n
    }

    // The number of data slots of the ACK at base, where it can be given up.
    fn spent(&self, n: u8, due: u32) -> Option<usize>
        ensures value { (h : Head) → result ≡ ready n (part h due self.now) (slots_of self.now self.now.base) }
        ensures bound { MatchOption result (⊥ → ⊥) (λ m. (m ≤ 4) × (self.now.base + m < due)) }
    {
        if self.acks() <= n as usize {
            return None;
        }
        let slot = self.slots[0];
        let Slot::Ack { names, .. } = slot else {
            return None;
        };
        (self.base + (names.count as u32) < due).then_some(names.count)
    }

    // The ACK at base and its m data slots are given up.
    fn forward(&mut self, m: usize)
        requires few { m ≤ 4 }
        requires near { self.old.base + m < 1000001 }
        ensures base { self.new.base ≡ suc (self.old.base + m) }
        ensures slots { slots_of self.new ≡ (λ s. (if leb s (self.old.base + m) then unknown else slots_of self.old s)) }
        ensures gone { table_of self.new.gone ≡ (λ s. highest (slots_of self.old) s (suc m) self.old.base (table_of self.old.gone s)) }
    {
        let k = m + 1;
        let mut gone = self.gone;
        climb(&mut gone, &self.slots[..k]);
        let slots = shifted(&self.slots, k, Slot::Unknown);
        self.gone = gone;
        self.slots = slots;
        self.base += k as u32;
    }

    // Gives up as long as something can be; false, and nothing changes, where due is past the last stamp and the one after it. A bool: no
    // value stands beside it.
    pub fn give_up(&mut self, n: u8, due: u32) -> bool
        ensures answer { result ≡ nat_le due 1000001 }
        ensures after { (h : Head) → part h due self.new ≡ (if result then m_give_up 96 n (part h due self.old) else part h due self.old) }
        ensures from { self.old.base ≤ due → self.new.base ≤ due }
        ensures passed { Passed self.old due → Passed self.new due }
        ensures low { Passed self.old due → (s : ℕ) → low_of self.new s ≡ low_of self.old s }
        ensures own { (g k : ℕ) → Own g k self.old → Own g k self.new }
        ensures ends { Ends self.old → Ends self.new }
    {
        if due > 1_000_001 {
            return false;
        }
        while let Some(m) = self.spent(n, due) {
            self.forward(m);
        }
        true
    }
}
