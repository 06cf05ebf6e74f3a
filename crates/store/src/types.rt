// What a head keeps, what it puts, and its ring as it sees it.
ghost use Rattle.std.specs.Prelude.{◌≡◌, ◌<◌, ◌≤◌, length};

use frames::table::Table;
use frames::types::{Body, Frame, Level, Name, Names, RingSize};

#[derive(Clone, Copy)]
pub enum Slot {
    Unknown,
    Ack { issuer: u8, names: Names },
    Data { name: Name, body: Option<Body> },
}

// A message without a slot.
#[derive(Clone, Copy)]
pub struct Kept {
    pub level: Level,
    pub body: Body,
}

// Of one source, the highest number of the known front, and what is pending of the four numbers after it.
#[derive(Clone, Copy)]
pub struct Source {
    pub low: u32,
    pub kept: [Option<Kept>; 4],
    ghost places: { length kept ≡ 4 },
}

// The slots for the stamps base to base + 95; of each source, the highest number of a slot given up. A step that leaves base or
// gone as it was says so in a clause: a fact about a queue before and after fits no type.
#[derive(Clone, Copy)]
pub struct Queue {
    pub base: u32,
    pub slots: [Slot; 96],
    pub gone: [u32; 8],
    ghost places: { length slots ≡ 96 },
    ghost sources: { length gone ≡ 8 },
    ghost small: { base ≤ 1000001 },
}

// What is pending of each source. A step that leaves the lows as they were says so in a clause, as with a queue.
#[derive(Clone, Copy)]
pub struct Inbox {
    pub sources: [Source; 8],
    ghost places: { length sources ≡ 8 },
}

// A ring as one head sees it: how many heads there are, and which of them it is.
#[derive(Clone, Copy)]
pub struct InRing {
    pub size: RingSize,
    pub me: u8,
}

// The frames that one call puts, in order: at most three.
pub type Frames = Table<Frame, 3>;
