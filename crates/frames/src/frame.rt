// The length of a frame, and whether a ring can have it.
ghost use Rattle.std.specs.Prelude.{◌≡◌, ℕ, ◌+◌, ◌≤◌, length};
ghost use Rattle.frames.specs.Values.{ack_frame, frame_ok};
ghost use Rattle.frames.specs.Types.{ack_meant, frame_of};
ghost use Rattle.frames.specs.Written.{written};

use crate::types::{Ack, Frame, RingSize};

impl Ack {
    // Whether its fields are in range for a ring of this size.
    pub fn suits(&self, size: RingSize) -> bool
        ensures { result ≡ frame_ok size.heads (ack_frame (ack_meant self.now)) }
    {
        1 <= self.stamp
            && self.stamp <= 1_000_000 - self.names.count as u32
            && self.issuer < size.heads
            && self.names.suit(size)
    }
}

impl Frame {
    // How many bytes it is written in.
    pub fn len(&self) -> usize
        ensures value { (n : ℕ) → result ≡ length (written n (frame_of self.now)) }
        ensures bound { result ≤ 32 }
    {
        match self {
            Frame::Data(message) => 8 + message.body.len as usize,
            Frame::Ack(ack) => 8 + 6 * ack.names.count,
            Frame::Nack(_) => 7,
        }
    }

    // Whether its fields are in range for a ring of this size.
    pub fn suits(&self, size: RingSize) -> bool
        ensures { result ≡ frame_ok size.heads (frame_of self.now) }
    {
        match self {
            Frame::Data(message) => message.name.suits(size),
            Frame::Ack(ack) => ack.suits(size),
            Frame::Nack(nack) => nack.from < size.heads
                && nack.to.suits(size)
                && 1 <= nack.stamp
                && nack.stamp <= 1_000_000,
        }
    }
}
