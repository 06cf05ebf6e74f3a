// Sizes, levels, names, bodies, frames and packets. Each holds only what can be meant: the ghost fields say so.
ghost use Rattle.std.specs.Prelude.{◌≡◌, ◌<◌, ◌≤◌, length};

use crate::table::Table;

// How many heads a ring has.
#[derive(Clone, Copy, PartialEq, Eq, Debug)]
pub struct RingSize {
    pub heads: u8,
    ghost least: { 2 ≤ heads },
    ghost most: { heads ≤ 8 },
}

// How many other heads a message waits for: none, so many, the majority, or all. Each has its number, as it is sent.
#[derive(Clone, Copy, PartialEq, Eq, Debug)]
pub enum Level {
    Total = 0,
    One = 1,
    Two = 2,
    Three = 3,
    Four = 4,
    Five = 5,
    Six = 6,
    Seven = 7,
    Majority = 8,
    Safe = 9,
}

// A message by its source, its number there and its level.
#[derive(Clone, Copy, PartialEq, Eq, Debug)]
pub struct Name {
    pub source: u8,
    pub number: u32,
    pub level: Level,
    ghost head: { source < 8 },
    ghost counted: { 1 ≤ number },
    ghost small: { number ≤ 500000 },
}

// The names of an ACK: at most four.
pub type Names = Table<Name, 4>;

// What a message says: the first len of eight bytes. An array and a byte, and no Table: with a table's count a body would take 16 bytes in
// place of 9, what a head keeps pending three times as many, and a delivered answer half as many again.
#[derive(Clone, Copy)]
pub struct Body {
    pub bytes: [u8; 8],
    pub len: u8,
    ghost places: { length bytes ≡ 8 },
    ghost some: { 1 ≤ len },
    ghost within: { len ≤ 8 },
}

// A frame's bytes, as a link carries them. No frame is longer than 32.
pub type Packet = Table<u8, 32>;

// A message, as it is sent.
#[derive(Clone, Copy)]
pub struct Message {
    pub name: Name,
    pub body: Body,
}

// An ACK orders the messages that it names: they have the stamps after its own. The head after the issuer is next.
#[derive(Clone, Copy)]
pub struct Ack {
    pub stamp: u32,
    pub issuer: u8,
    pub names: Names,
}

// Whom a NACK asks. Shaped like an Option, but None would not say that it asks everyone.
#[derive(Clone, Copy, PartialEq, Eq, Debug)]
pub enum To {
    Head(u8),
    Everyone,
}

// Who lacks the slot at a stamp, and whom it asks.
#[derive(Clone, Copy, PartialEq, Eq, Debug)]
pub struct Nack {
    pub from: u8,
    pub to: To,
    pub stamp: u32,
}

#[derive(Clone, Copy)]
pub enum Frame {
    Data(Message),
    Ack(Ack),
    Nack(Nack),
}
