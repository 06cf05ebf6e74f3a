// A ring being fitted, running, and docked.
ghost use Rattle.std.specs.Prelude.{◌≡◌, ◌≤◌, length};
ghost use Rattle.ring.specs.Table.{Sized, Numbered, KeptRanged, SlotsRanged};

use calls::member::Member;
use frames::refusal::Refusal;
use frames::types::RingSize;
use thiserror::Error;

// How many heads are fitted.
#[derive(Debug, Drop)]
pub struct Roster {
    pub(crate) count: u8,
    ghost most: { count ≤ 8 },
}

// A head for each number. A ring has the first ones, as many as its size says: a device has fixed memory and no heap. An array and
// no Table: every place has a head, and the ring's size counts those that are its own.
#[derive(Drop)]
pub struct Heads {
    pub(crate) all: [Member; 8],
    pub(crate) size: RingSize,
    ghost places: { length all ≡ 8 },
    ghost sized: { Sized size.heads all },
    ghost numbered: { Numbered size.heads all },
    ghost kept: { KeptRanged size.heads all },
    ghost slots: { SlotsRanged size.heads all },
}

// Running: the heads call and hear one another over the link.
#[derive(Drop)]
pub struct Ring<L> {
    pub(crate) heads: Heads,
    pub(crate) link: L,
}

// Docked: the heads as they were left, to be asked.
#[derive(Drop)]
pub struct Docked {
    pub(crate) heads: Heads,
}

// A start that was refused gives back what it was given.
#[derive(Debug, Drop, Error)]
#[error("{refusal}")]
pub struct NotStarted<L> {
    pub refusal: Refusal,
    pub roster: Roster,
    pub link: L,
}
