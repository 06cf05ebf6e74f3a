// A head, and what it keeps true.
ghost use Rattle.std.specs.Prelude.{◌≡◌, ℕ, ◌+◌, ◌<◌, ◌≤◌};
ghost use Rattle.store.specs.Parts.{lows_of, low_of, Passed, Ends, Own};

use frames::types::RingSize;
use store::types::{Inbox, Queue};

// size: no call changes it, and each says so by a clause of its own, since the model that the other clause speaks of has no size; one definition over both would only name the pair, and a Model would hide the fields that callers read.
// due: the next stamp to deliver. What is before it is known, no stamp past the last is known,
// no own number above made is named, and low is what the queue says.
#[derive(Clone, Copy)]
pub struct Head {
    pub size: RingSize,
    pub me: u8,
    pub made: u32,
    pub queue: Queue,
    pub inbox: Inbox,
    pub due: u32,
    pub ticks: u8,
    pub tries: u8,
    ghost member: { me < size.heads },
    ghost range: { (queue.base ≤ due) × (due ≤ 1000001) },
    ghost passed: { Passed queue due },
    ghost ends: { Ends queue },
    ghost own: { Own me made queue },
    ghost lows: { (s : ℕ) → lows_of inbox s ≡ low_of queue s },
}
