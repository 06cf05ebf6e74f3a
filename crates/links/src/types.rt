// What wire and air keep: packets in fixed tables, the oldest first.
ghost use Rattle.std.specs.Prelude.{◌≡◌, ◌<◌, ◌≤◌, length, replicate};

use frames::table::Table;
use frames::types::Packet;

// The packets that wait for one head of a wire.
pub(crate) type Queue = Table<Packet, 32>;

// A queue for each head.
#[derive(Clone, Copy)]
pub struct Wire {
    pub(crate) queues: Table<Queue, 8>,
}

// A set of heads: a flag for each, and no length beside them.
#[derive(Clone, Copy)]
pub(crate) struct HeadSet {
    pub(crate) flags: [bool; 8],
    ghost places: { length flags ≡ 8 },
}

// A packet in air, and the heads that it waits for.
#[derive(Clone, Copy)]
pub(crate) struct Place {
    pub(crate) packet: Packet,
    pub(crate) heads: HeadSet,
}

// The places of air.
#[derive(Clone, Copy)]
pub(crate) struct Places {
    pub(crate) table: Table<Place, 16>,
}

// What a choice byte does to the put or the take that uses it.
#[derive(Clone, Copy, PartialEq, Eq)]
pub(crate) enum Choice {
    // Nothing.
    Plain,
    // The packet put is lost.
    Lost,
    // The packet taken goes on waiting.
    Repeated,
    // The newest packet is taken in place of the oldest.
    Newest,
}

// Choice bytes, and which of them is next: they go round, so this is a place and no length.
#[derive(Clone, Copy)]
pub(crate) struct Choices {
    pub(crate) bytes: [u8; 16],
    pub(crate) turn: usize,
    ghost places: { length bytes ≡ 16 },
    ghost within: { turn < 16 },
}

// The places, the choices, and how many heads there are.
#[derive(Clone, Copy)]
pub struct Air {
    pub(crate) places: Places,
    pub(crate) choices: Choices,
    pub(crate) heads: usize,
    ghost within: { heads ≤ 8 },
}

// What stands in the places that are not in use.
pub(crate) fn empty_packet() -> Packet
    ensures len { result.count ≡ 0 }
    ensures bytes { result.places ≡ replicate 32 0 }
{
    Table {
        places: [0; 32],
        count: 0,
    }
}
