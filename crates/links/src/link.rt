// A link: it carries packets between the heads of a ring, in three calls.
ghost use Rattle.frames.specs.Types.{packet_of};
ghost use Rattle.links.specs.Meaning.{Waits, AfterPut, AfterTake, Cleared};
ghost use Rattle.links.specs.Types.{taken_of};

use frames::types::{Packet, RingSize};

// What a link promises is its meaning alone: which packets can wait for which head. It may lose, repeat and reorder.
pub trait Link {
    ghost waits: { Self → Waits };

    fn put(&mut self, packet: Packet)
        ensures meaning { AfterPut (packet_of packet) (waits self.old) (waits self.new) };

    fn take(&mut self, head: u8) -> Option<Packet>
        ensures meaning { AfterTake head (taken_of result) (waits self.old) (waits self.new) };

    fn clear(&mut self, size: RingSize)
        ensures meaning { Cleared (waits self.new) };
}
