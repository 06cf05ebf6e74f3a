// What a head reads off its queue: the top ACK, whether there was traffic, the frame of a slot; and whom and when it asks.
ghost use Rattle.std.specs.Prelude.{◌≡◌, ℕ, ◌+◌, ◌<◌, ◌≤◌, min, length, MatchOption};
ghost use Rattle.frames.specs.Types.{asked_of};
ghost use Rattle.head.specs.Head.{Head, top as m_top};
ghost use Rattle.head.specs.Hear.{frames_of};
ghost use Rattle.head.specs.Queue.{ack_at, last_ack as m_last_ack};
ghost use Rattle.head.specs.Tick.{another as m_another, asked as m_asked, busy, issuer_or, wait as m_wait};
ghost use Rattle.store.specs.Look.{put_of, top_of};
ghost use Rattle.store.specs.Parts.{names_at, queue_of, slot_of, slots_of};

use crate::types::{InRing, Queue, Slot};
use frames::types::{Ack, Frame, Message, Names, To};

impl Slot {
    // The frame of a full slot.
    fn frame(self, stamp: u32) -> Option<Frame>
        ensures { put_of result ≡ frames_of (slot_of self) stamp }
    {
        match self {
            Slot::Unknown => None,
            Slot::Ack { .. } => self.ack(stamp).map(Frame::Ack),
            Slot::Data { name, body } => body.map(|body| Frame::Data(Message { name, body })),
        }
    }

    // The ACK that stands here, under the stamp of the slot.
    fn ack(self, stamp: u32) -> Option<Ack>
        ensures { top_of result ≡ ack_at (slot_of self) stamp }
    {
        match self {
            Slot::Ack { issuer, names } => Some(Ack {
                stamp,
                issuer,
                names,
            }),
            _ => None,
        }
    }

    // The names of an ACK.
    fn names(&self) -> Option<Names>
        ensures { result ≡ names_at self.now }
    {
        match *self {
            Slot::Ack { names, .. } => Some(names),
            _ => None,
        }
    }
}

// Whether one of the last n ACKs among these slots names a message.
fn any_named(slots: &[Slot], n: u8) -> bool
    ensures { (b : ℕ) → result ≡ busy (queue_of b slots.now) (length slots.now) b n }
{
    slots
        .iter()
        .rev()
        .filter_map(|slot| slot.names())
        .take(n as usize)
        .any(|names| names.count > 0)
}

impl Queue {
    // The last ACK among the first places. Past the queue there is none, so the k stamps may be more than the places.
    pub(crate) fn last_ack(&self, count: usize) -> Option<Ack>
        requires { count ≤ 96 }
        ensures value { (k : ℕ) → count ≡ min k 96 → top_of result ≡ m_last_ack (slots_of self.now) k self.now.base }
        ensures bound { MatchOption result (⊥ → ⊥) (λ a. (self.now.base ≤ a.stamp) × (a.stamp < self.now.base + count)) }
    {
        let slots = &self.slots[..count];
        match slots.iter().rposition(|slot| slot.is_ack()) {
            Some(place) => slots[place].ack(self.base + place as u32),
            None => None,
        }
    }

    // The known ACK with the highest stamp, if there is one.
    pub fn top(&self) -> Option<Ack>
        ensures { top_of result ≡ m_last_ack (slots_of self.now) 96 self.now.base }
    {
        self.last_ack(96)
    }

    // Whether one of the last n known ACKs has a name.
    pub fn is_busy(&self, n: u8) -> bool
        ensures { result ≡ busy (slots_of self.now) 96 self.now.base n }
    {
        any_named(&self.slots, n)
    }

    // The frame of the slot at a stamp, where it is full.
    pub fn frame_at(&self, stamp: u32) -> Option<Frame>
        ensures { put_of result ≡ frames_of (slots_of self.now stamp) stamp }
    {
        self.at(stamp as u64).frame(stamp)
    }
}

// How many ticks a head waits after so many tries: 1, doubled at each try, at most 32.
pub fn wait(tries: u8) -> u8
    ensures { result ≡ m_wait tries }
{
    match tries {
        0 => 1,
        1 => 2,
        2 => 4,
        3 => 8,
        4 => 16,
        _ => 32,
    }
}

// The issuer of the top ACK; head 0 while none is known.
fn issuer_of(top: Option<Ack>) -> u8
    ensures { result ≡ issuer_or 0 (top_of top) }
{
    top.map_or(0, |ack| ack.issuer)
}

impl InRing {
    // The head itself, or the one after it if it is this head.
    fn another(self, head: u8) -> u8
        ensures { result ≡ m_another self.size.heads self.me head }
    {
        if head == self.me {
            self.size.after(head)
        } else {
            head
        }
    }
}

// Whom a NACK asks: the top ACK's issuer first, with each try the head after it, never this head; in the end everyone.
pub fn asked(top: Option<Ack>, tries: u8, ring: InRing) -> To
    ensures { (h : Head) → h.me ≡ ring.me → h.tries ≡ tries → m_top h ≡ top_of top → asked_of result ≡ m_asked ring.size.heads h }
{
    if tries >= ring.size.heads {
        return To::Everyone;
    }
    let issuer = issuer_of(top);
    let head = (issuer as u16 + tries as u16) % ring.size.heads as u16;
    To::Head(ring.another(head as u8))
}
